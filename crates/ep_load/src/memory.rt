//! Lists of one element.
ghost use Rattle.std.specs.Prelude.{◌≡◌, ◌∷◌, [], IfOk};

use ep_base::NoMemory;
use std::alloc::Global;

// A list of this element alone.
pub(crate) fn list_of<T: Drop>(alloc: Global, element: T) -> Result<Vec<T>, NoMemory>
    ensures { IfOk result (λ v. v.items ≡ element ∷ []) }
{
    let mut list = Vec::new(alloc);
    match list.push(element) {
        Ok(()) => Ok(list),
        Err(_) => Err(NoMemory),
    }
}
