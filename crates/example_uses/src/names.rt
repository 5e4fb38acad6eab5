//! Names that threads share: equal names are one stored text.
ghost use Rattle.std.specs.Prelude.{IfOk, IfSome, IsTrue};
ghost use Rattle.std.specs.Str.{bytes_eq};
ghost use Rattle.std.specs.String.{string_bytes};
ghost use Rattle.dashmap.specs.Words.{Stands};

use dashmap::DashSet;
use dashmap::hash::FixedState;
use dashmap::setref::one::Ref;
use std::alloc::{AllocError, Global};
use std::rt::Clock;
use std::sync::Wait;

/// The names, each once.
pub type Names = DashSet<String>;

/// The stored name that equals this one, which is stored first where there is none. It is held till the answer is dropped.
///
/// None is returned only where somebody took the name out between the two looks.
pub fn intern<'a, R: Wait + Clock>(
    rt: &R,
    alloc: Global,
    names: &'a Names,
    name: &str,
) -> Result<Option<Ref<'a, String, FixedState>>, AllocError>
    ensures equal { IfOk result (λ found. IfSome found (λ r. IsTrue (bytes_eq name.now (string_bytes r.key)))) }
    ensures stands { IfOk result (λ found. IfSome found Stands) }
{
    if let Some(found) = names.get(rt, name) {
        return Ok(Some(found));
    }
    if names.insert(rt, String::from_str(alloc, name)?).is_err() {
        return Err(AllocError);
    }
    Ok(names.get(rt, name))
}
