// The name under which an included file is fetched.

ghost use Rattle.std.specs.Prelude.{◌≡◌, IfOk, string_bytes};
ghost use Rattle.mz_include.specs.Joining.{folder, joined};

use std::alloc::{AllocError, Global};

/// The folder of a file: its name up to and with its last `/`, and empty where it has none.
fn folder(name: &str) -> &str
    ensures { result.now ≡ folder name.now }
{
    match name.rfind('/') {
        Some(slash) => name.split_at(slash + 1).0,
        None => "",
    }
}

/// The name under which a file is fetched that the file `including` names as `written`.
///
/// A name that begins with `/` stands as it is; any other is put after the including file's
/// folder.
pub fn joined(alloc: Global, including: &str, written: &str) -> Result<String, AllocError>
    ensures { IfOk result (λ name. string_bytes name ≡ joined including.now written.now) }
{
    let mut name = String::new(alloc);
    if written.as_bytes().first() != Some(&b'/') {
        name.push_str(folder(including))?;
    }
    name.push_str(written)?;
    Ok(name)
}
