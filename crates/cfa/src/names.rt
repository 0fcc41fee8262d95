// The functions by their names.
ghost use Rattle.std.specs.Prelude.{◌<◌, ◌^◌, length, IfOk};
ghost use Rattle.cfa.specs.Names.{AreFirstNumbers};

use crate::parts::GraphParts;
use std::alloc::{AllocError, Global};
use std::collections::BTreeMap;

/// By name, the number of the first function that has it.
pub(crate) fn first_numbers(
    alloc: Global,
    parts: &GraphParts,
) -> Result<BTreeMap<Vec<u8>, u32>, AllocError>
    requires { length parts.now.functions < 2 ^ 32 }
    ensures { IfOk result (λ names. AreFirstNumbers parts.now.functions names) }
{
    let mut names = BTreeMap::new(alloc);
    for (i, function) in parts.functions.iter().enumerate() {
        let name = function.name.bytes();
        if !names.contains_key(name) {
            names.insert(Vec::from_slice(alloc, name)?, i as u32)?;
        }
    }
    Ok(names)
}
