// The symbol count (document 01, 'Settings').
ghost use Rattle.std.specs.Prelude.{◌≡◌, ◌*◌, ◌≤◌};
ghost use Rattle.settings.specs.Settings.{check_of, Right};
ghost use Rattle.symbols.specs.Symbols.{symbols_of, count_of};

use settings::settings::{RawSettings, Refusal, Settings, check, plan_of};

// Six tail bits for each encoder.
fn tail_bits(encoders: usize) -> usize
    requires { encoders ≤ 2 }
    ensures { (result ≡ 6 * encoders) × (result ≤ 12) }
{
    6 * encoders
}

// The data symbols of accepted settings: the least whole number not below (16 + 8 * length + 6 * N_ES) / N_DBPS.
pub fn symbols_of(s: Settings) -> u64
    requires { Right s }
    ensures { result ≡ symbols_of s }
{
    let plan = plan_of(s);
    let bits = 16 + 8 * s.length as usize + tail_bits(plan.encoders);
    let dbps = plan.dbps;
    ((bits + (dbps - 1)) / dbps) as u64
}

// The public call.
pub fn symbol_count(raw: RawSettings) -> Result<u64, Refusal>
    ensures { result ≡ count_of (check_of raw) }
{
    let checked = check(raw);
    let Ok(s) = checked else {
        return Err(checked.unwrap_err());
    };
    Ok(symbols_of(s))
}
