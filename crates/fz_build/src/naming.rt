// The names of introduced variables.

ghost use Rattle.std.specs.Prelude.{◌≡◌, ◌<◌, ◌+◌, ◌^◌, IfOk, string_bytes};
ghost use Rattle.fz_build.specs.Naming.{introduced_name, number_after};

use fz_program::FzName;
use itoa::Buffer;
use mz_base::Memory;
use std::alloc::Global;

// `X_INTRODUCED_k_`.
pub(crate) fn introduced_name(alloc: Global, k: u64) -> Result<FzName, Memory>
    ensures { IfOk result (λ n. string_bytes n.text ≡ introduced_name k) }
{
    let mut text = String::from_str(alloc, "X_INTRODUCED_")?;
    let mut buffer = Buffer::new();
    text.push_str(buffer.format(k))?;
    text.push_str("_")?;
    Ok(FzName { text })
}

// The number of the next introduced variable, after one that is introduced or isn't.
pub(crate) fn number_after(introduced: bool, n: u64) -> u64
    requires { n + 1 < 2 ^ 64 }
    ensures { result ≡ number_after introduced n }
{
    if introduced { n + 1 } else { n }
}
