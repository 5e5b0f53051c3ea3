// The number of the set of C calls, for a caller to compare with that of its own declarations. A crate by itself: the number rises with
// every change of the calls, and of the others only theirs is proved anew for it.
#![tactic(auto)]

ghost use Rattle.std.specs.Prelude.{◌≡◌, pos};
ghost use Rattle.abi.specs.Abi.{abi_number};

const ABI: i64 = 1;

pub fn abi() -> i64
    ensures { result ≡ pos abi_number }
{
    ABI
}
