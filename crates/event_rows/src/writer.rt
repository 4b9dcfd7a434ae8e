//! A writer of the fields of a row.
ghost use Rattle.std.specs.Prelude.{◌≡◌, ◌≤◌, ◌++◌, [], length, IfOk, OnOk};
ghost use Rattle.event_rows.specs.Ranges.{IsBearer};
ghost use Rattle.event_rows.specs.Spelling.{one_byte, two_bytes, four_bytes, eight_bytes, sixteen_bytes, flag, text, bearer};

use agent_events::Bearer;
use money_units::NoMemory;
use std::alloc::Global;
use std::marker::Model;

/// The bytes of a row that is being written, which contracts see as the list of them. Each call puts a field at the end;
/// where it answers a fault, what is written is of no use.
#[derive(Debug, Drop)]
pub struct RowWriter {
    bytes: Vec<u8>,
}

impl Model for RowWriter {
    ghost use Rattle.std.specs.Prelude.{ℕ, List};

    ghost Value = { List ℕ };

    ghost view = { λ writer. writer.bytes.items };
}

impl RowWriter {
    /// An empty row, which takes no memory yet.
    pub fn new(alloc: Global) -> RowWriter
        ensures { result ≡ [] }
    {
        RowWriter {
            bytes: Vec::new(alloc),
        }
    }

    /// An empty row with the memory for so many bytes; a longer row takes more as it grows.
    pub fn with_room(alloc: Global, bytes: usize) -> Result<RowWriter, NoMemory>
        ensures { IfOk result (λ writer. writer ≡ []) }
    {
        Ok(RowWriter {
            bytes: Vec::with_capacity(alloc, bytes)?,
        })
    }

    /// The bytes that are written.
    pub fn into_bytes(self) -> Vec<u8>
        ensures { result.items ≡ self }
    {
        self.bytes
    }

    /// A byte.
    pub fn byte(&mut self, number: u8) -> Result<(), NoMemory>
        ensures { OnOk result (self.new ≡ self.old ++ one_byte number) }
    {
        self.bytes.push(number)?;
        Ok(())
    }

    /// A number of two bytes.
    #[tactic(auto, unfolding(crate::specs::Spelling::two_bytes))]
    pub fn u16(&mut self, number: u16) -> Result<(), NoMemory>
        ensures { OnOk result (self.new ≡ self.old ++ two_bytes number) }
    {
        self.bytes.extend_from_slice(&number.to_be_bytes())?;
        Ok(())
    }

    /// A number of four bytes.
    #[tactic(auto, unfolding(crate::specs::Spelling::four_bytes))]
    pub fn u32(&mut self, number: u32) -> Result<(), NoMemory>
        ensures { OnOk result (self.new ≡ self.old ++ four_bytes number) }
    {
        self.bytes.extend_from_slice(&number.to_be_bytes())?;
        Ok(())
    }

    /// A number of eight bytes.
    #[tactic(auto, unfolding(crate::specs::Spelling::eight_bytes))]
    pub fn u64(&mut self, number: u64) -> Result<(), NoMemory>
        ensures { OnOk result (self.new ≡ self.old ++ eight_bytes number) }
    {
        self.bytes.extend_from_slice(&number.to_be_bytes())?;
        Ok(())
    }

    /// A number of sixteen bytes.
    #[tactic(auto, unfolding(crate::specs::Spelling::sixteen_bytes))]
    pub fn u128(&mut self, number: u128) -> Result<(), NoMemory>
        ensures { OnOk result (self.new ≡ self.old ++ sixteen_bytes number) }
    {
        self.u64((number / 18_446_744_073_709_551_616) as u64)?;
        self.u64((number % 18_446_744_073_709_551_616) as u64)?;
        Ok(())
    }

    /// A flag: 00 for no, 01 for yes.
    #[tactic(auto, unfolding(crate::specs::Spelling::flag))]
    pub fn flag(&mut self, answer: bool) -> Result<(), NoMemory>
        ensures { OnOk result (self.new ≡ self.old ++ flag answer) }
    {
        self.byte(if answer { 1 } else { 0 })?;
        Ok(())
    }

    /// A count of items.
    pub fn count(&mut self, number: usize) -> Result<(), NoMemory>
        requires { number ≤ 65535 }
        ensures { OnOk result (self.new ≡ self.old ++ two_bytes number) }
    {
        self.u16(number as u16)?;
        Ok(())
    }

    /// A text behind its length.
    #[tactic(auto, unfolding(crate::specs::Spelling::text))]
    pub fn text(&mut self, bytes: &[u8]) -> Result<(), NoMemory>
        requires { length bytes.now ≤ 65535 }
        ensures { OnOk result (self.new ≡ self.old ++ text bytes.now) }
    {
        self.count(bytes.len())?;
        self.bytes.extend_from_slice(bytes)?;
        Ok(())
    }

    /// Who bears a loss: 00 the fund, 01 the agent, 02 and the dealer.
    #[tactic(auto, unfolding(crate::specs::Spelling::bearer))]
    pub fn bearer(&mut self, who: Bearer) -> Result<(), NoMemory>
        ensures written { OnOk result (self.new ≡ self.old ++ bearer who) }
        ensures in_form { OnOk result (IsBearer who) }
    {
        match who {
            Bearer::Fund => self.byte(0)?,
            Bearer::Agent => self.byte(1)?,
            Bearer::Dealer(dealer) => {
                self.byte(2)?;
                self.u32(dealer.number())?;
            }
        }
        Ok(())
    }
}
