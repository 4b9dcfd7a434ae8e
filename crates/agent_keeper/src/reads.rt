//! What a reading call hands out.
ghost use Rattle.std.specs.Prelude.{◌≡◌, [], Some, None, IfOk, OnErr, if◌then◌else◌};
ghost use Rattle.std.specs.Option.{option_copied};
ghost use Rattle.std.specs.Bool.{OnFalse};

use money_units::NoMemory;

/// Leaves in `into` the bytes that were found, and nothing else, and answers whether there are any.
pub fn hand_out(found: Option<&[u8]>, into: &mut Vec<u8>) -> Result<bool, NoMemory>
    ensures exact { IfOk result (λ is_found. option_copied found.entry
        ≡ (if is_found then Some into.new.items else None)) }
    ensures missing { IfOk result (λ is_found. OnFalse is_found (into.new.items ≡ [])) }
    ensures refused { OnErr result (into.new.items ≡ []) }
{
    into.clear();
    let Some(bytes) = found else {
        return Ok(false);
    };
    into.extend_from_slice(bytes)?;
    Ok(true)
}
