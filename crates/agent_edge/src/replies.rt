//! Writing a whole text on a connection.
ghost use Rattle.std.specs.Prelude.{◌≡◌, ℕ, ◌<◌, ◌≤◌, IsTrue, length, take, option_map, OnOk, OnErr};
ghost use Rattle.agent_edge.specs.Counts.{Rose};
ghost use Rattle.agent_edge.specs.Links.{after_write};

use super::{Door, LinkFault};

/// Writes all of `bytes` on the open connection, in as few calls as the door takes. After a fault the front that was
/// taken by then stays written.
pub fn write_reply<D: Door>(door: &mut D, bytes: &[u8]) -> Result<(), LinkFault>
    requires { IsTrue (D.is_connected door.old) }
    ensures all { OnOk result (D.told door.new
        ≡ option_map (after_write bytes.now) (D.told door.old)) }
    ensures front { OnErr result ((count : ℕ) × (count < length bytes.now)
        × (D.told door.new ≡ option_map (after_write (take count bytes.now)) (D.told door.old))) }
    ensures connected { IsTrue (D.is_connected door.new) }

    // A fault comes only where the count of faults rose, and nothing else raises it.
    ensures fault { OnErr result (Rose (D.link_faults door.old) (D.link_faults door.new)) }
    ensures no_fault { OnOk result (D.link_faults door.new ≡ D.link_faults door.old) }
    ensures never_falls { D.link_faults door.old ≤ D.link_faults door.new }
    ensures door { D.door_faults door.new ≡ D.door_faults door.old }
{
    let mut written = 0;
    while written < bytes.len() {
        written += door.write(&bytes[written..])?;
    }
    Ok(())
}
