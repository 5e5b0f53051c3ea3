// The texts that the listing prints, and numbers as text (document 01, 'Checked by hand', its last part).
#![tactic(auto)]

pub mod printing;
#[cfg(test)]
mod tests;
