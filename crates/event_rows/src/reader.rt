//! A reader of the fields of a row.
ghost use Rattle.std.specs.Prelude.{◌≡◌, ◌==◌, length, IfErr};
ghost use Rattle.event_rows.specs.declared.fault.RowFault.TheVariants.{Wrong};
ghost use Rattle.std.specs.Int.{w16, w32, w64};
ghost use Rattle.event_rows.specs.FieldReading.{Reads, ReadsAs, number_at, byte_at};
ghost use Rattle.event_rows.specs.Readers as field;

use crate::fault::RowFault;
use agent_events::{
    Amount, Bearer, CorrectedRate, DealerKey, DividendRate, HouseholdKey, Identifier, Minimum,
    Name, Quantity, Reference, TimeOfDay, Window, ZoneText,
};
use class_terms::Label;
use fund_calendar::Day;
use money_units::{Bps, Bytes, Cents, Mils, Moment, Nav};
use std::alloc::Global;
use std::marker::Model;

/// The bytes of a row that aren't read yet, which contracts see as the list of them. Each call takes a field from the
/// front; where it answers a fault, what is left is of no use.
#[derive(Debug, Drop)]
pub struct RowReader<'a> {
    rest: &'a [u8],
}

impl<'a> Model for RowReader<'a> {
    ghost use Rattle.std.specs.Prelude.{ℕ, List};

    ghost Value = { List ℕ };

    ghost view = { λ reader. reader.rest.now };
}

impl<'a> RowReader<'a> {
    /// A reader of these bytes.
    pub fn new(bytes: &'a [u8]) -> RowReader<'a>
        ensures { result ≡ bytes.now }
    {
        RowReader { rest: bytes }
    }

    /// Whether nothing is left.
    pub fn is_empty(&self) -> bool
        ensures { result ≡ (length self.now == 0) }
    {
        self.rest.is_empty()
    }

    /// A byte.
    pub fn byte(&mut self) -> Result<u8, RowFault>
        ensures read { Reads result self.new (byte_at self.old) }
        ensures still { IfErr result (λ fault. fault ≡ Wrong) }
    {
        match self.rest {
            [] => Err(RowFault::Wrong),
            [byte, rest @ ..] => {
                self.rest = rest;
                Ok(*byte)
            }
        }
    }

    /// A number of two bytes.
    #[tactic(auto, unfolding(crate::specs::FieldReading::number_at))]
    pub fn u16(&mut self) -> Result<u16, RowFault>
        ensures read { Reads result self.new (number_at w16 self.old) }
        ensures still { IfErr result (λ fault. fault ≡ Wrong) }
    {
        if self.rest.len() < 2 {
            return Err(RowFault::Wrong);
        }
        let (front, rest) = self.rest.split_at(2);
        self.rest = rest;
        Ok(u16::from_be_bytes([front[0], front[1]]))
    }

    /// A number of four bytes.
    #[tactic(auto, unfolding(crate::specs::FieldReading::number_at))]
    pub fn u32(&mut self) -> Result<u32, RowFault>
        ensures read { Reads result self.new (number_at w32 self.old) }
        ensures still { IfErr result (λ fault. fault ≡ Wrong) }
    {
        if self.rest.len() < 4 {
            return Err(RowFault::Wrong);
        }
        let (front, rest) = self.rest.split_at(4);
        self.rest = rest;
        Ok(u32::from_be_bytes([front[0], front[1], front[2], front[3]]))
    }

    /// A number of eight bytes.
    #[tactic(auto, unfolding(crate::specs::FieldReading::number_at))]
    pub fn u64(&mut self) -> Result<u64, RowFault>
        ensures read { Reads result self.new (number_at w64 self.old) }
        ensures still { IfErr result (λ fault. fault ≡ Wrong) }
    {
        if self.rest.len() < 8 {
            return Err(RowFault::Wrong);
        }
        let (front, rest) = self.rest.split_at(8);
        self.rest = rest;
        Ok(u64::from_be_bytes([
            front[0], front[1], front[2], front[3], front[4], front[5], front[6], front[7],
        ]))
    }

    /// A number of sixteen bytes.
    #[tactic(auto, unfolding(crate::specs::Readers::sixteen_at))]
    pub fn u128(&mut self) -> Result<u128, RowFault>
        ensures read { Reads result self.new (field.sixteen_at self.old) }
        ensures still { IfErr result (λ fault. fault ≡ Wrong) }
    {
        let high = self.u64()?;
        let low = self.u64()?;
        Ok(18_446_744_073_709_551_616 * high as u128 + low as u128)
    }

    /// A flag: 00 for no, 01 for yes.
    #[tactic(auto, unfolding(crate::specs::Readers::flag_at))]
    pub fn flag(&mut self) -> Result<bool, RowFault>
        ensures read { Reads result self.new (field.flag_at self.old) }
        ensures still { IfErr result (λ fault. fault ≡ Wrong) }
    {
        match self.byte()? {
            0 => Ok(false),
            1 => Ok(true),
            _ => Err(RowFault::Wrong),
        }
    }

    /// A text behind its length.
    #[tactic(auto, unfolding(crate::specs::Readers::text_at))]
    pub fn text(&mut self) -> Result<&'a [u8], RowFault>
        ensures read { ReadsAs (λ text. text.now) result self.new (field.text_at self.old) }
        ensures still { IfErr result (λ fault. fault ≡ Wrong) }
    {
        let count = self.u16()? as usize;
        if self.rest.len() < count {
            return Err(RowFault::Wrong);
        }
        let (text, rest) = self.rest.split_at(count);
        self.rest = rest;
        Ok(text)
    }

    /// The number of a calendar, class, fund, dealer, household or account.
    #[tactic(auto, unfolding(crate::specs::Readers::identifier_at))]
    pub fn identifier(&mut self) -> Result<Identifier, RowFault>
        ensures read { Reads result self.new (field.identifier_at self.old) }
        ensures still { IfErr result (λ fault. fault ≡ Wrong) }
    {
        Identifier::new(self.u32()? as u64).ok_or(RowFault::Wrong)
    }

    /// The same, or 0 for none.
    #[tactic(auto, unfolding(crate::specs::Readers::identifier_or_none_at))]
    pub fn identifier_or_none(&mut self) -> Result<u32, RowFault>
        ensures read { Reads result self.new (field.identifier_or_none_at self.old) }
        ensures still { IfErr result (λ fault. fault ≡ Wrong) }
    {
        self.u32()
    }

    /// What an account calls an order, or the number of a correction.
    #[tactic(auto, unfolding(crate::specs::Readers::reference_at))]
    pub fn reference(&mut self) -> Result<Reference, RowFault>
        ensures read { Reads result self.new (field.reference_at self.old) }
        ensures still { IfErr result (λ fault. fault ≡ Wrong) }
    {
        Reference::new(self.u64()?).ok_or(RowFault::Wrong)
    }

    /// A moment in seconds.
    #[tactic(auto, unfolding(crate::specs::Readers::moment_at))]
    pub fn moment(&mut self) -> Result<Moment, RowFault>
        ensures read { Reads result self.new (field.moment_at self.old) }
        ensures still { IfErr result (λ fault. fault ≡ Wrong) }
    {
        Moment::new(self.u64()?).ok_or(RowFault::Wrong)
    }

    /// A date as its day number.
    #[tactic(auto, unfolding(crate::specs::Readers::day_at))]
    pub fn day(&mut self) -> Result<Day, RowFault>
        ensures read { Reads result self.new (field.day_at self.old) }
        ensures still { IfErr result (λ fault. fault ≡ Wrong) }
    {
        let number = self.u32()?;
        if number > 84_005 {
            return Err(RowFault::Wrong);
        }
        Day::from_number(number as i32).ok_or(RowFault::Wrong)
    }

    /// The cents of an order or a letter.
    #[tactic(auto, unfolding(crate::specs::Readers::amount_at))]
    pub fn amount(&mut self) -> Result<Amount, RowFault>
        ensures read { Reads result self.new (field.amount_at self.old) }
        ensures still { IfErr result (λ fault. fault ≡ Wrong) }
    {
        Amount::new(Cents(self.u64()?)).ok_or(RowFault::Wrong)
    }

    /// The least cents of a purchase.
    #[tactic(auto, unfolding(crate::specs::Readers::minimum_at))]
    pub fn minimum(&mut self) -> Result<Minimum, RowFault>
        ensures read { Reads result self.new (field.minimum_at self.old) }
        ensures still { IfErr result (λ fault. fault ≡ Wrong) }
    {
        Minimum::new(Cents(self.u64()?)).ok_or(RowFault::Wrong)
    }

    /// A net asset value in cents.
    #[tactic(auto, unfolding(crate::specs::Readers::nav_at))]
    pub fn nav(&mut self) -> Result<Nav, RowFault>
        ensures read { Reads result self.new (field.nav_at self.old) }
        ensures still { IfErr result (λ fault. fault ≡ Wrong) }
    {
        Nav::new(self.u64()?).ok_or(RowFault::Wrong)
    }

    /// The mils of an order.
    #[tactic(auto, unfolding(crate::specs::Readers::quantity_at))]
    pub fn quantity(&mut self) -> Result<Quantity, RowFault>
        ensures read { Reads result self.new (field.quantity_at self.old) }
        ensures still { IfErr result (λ fault. fault ≡ Wrong) }
    {
        Quantity::new(Mils(self.u64()?)).ok_or(RowFault::Wrong)
    }

    /// The rate of a dividend in millionths of a dollar per share.
    #[tactic(auto, unfolding(crate::specs::Readers::dividend_rate_at))]
    pub fn dividend_rate(&mut self) -> Result<DividendRate, RowFault>
        ensures read { Reads result self.new (field.dividend_rate_at self.old) }
        ensures still { IfErr result (λ fault. fault ≡ Wrong) }
    {
        DividendRate::new(self.u64()?).ok_or(RowFault::Wrong)
    }

    /// The same as it is corrected, 0 for none.
    #[tactic(auto, unfolding(crate::specs::Readers::corrected_rate_at))]
    pub fn corrected_rate(&mut self) -> Result<CorrectedRate, RowFault>
        ensures read { Reads result self.new (field.corrected_rate_at self.old) }
        ensures still { IfErr result (λ fault. fault ≡ Wrong) }
    {
        CorrectedRate::new(self.u64()?).ok_or(RowFault::Wrong)
    }

    /// Minutes after midnight.
    #[tactic(auto, unfolding(crate::specs::Readers::time_of_day_at))]
    pub fn time_of_day(&mut self) -> Result<TimeOfDay, RowFault>
        ensures read { Reads result self.new (field.time_of_day_at self.old) }
        ensures still { IfErr result (λ fault. fault ≡ Wrong) }
    {
        TimeOfDay::new(self.u16()?).ok_or(RowFault::Wrong)
    }

    /// The seconds of a dealer's window.
    #[tactic(auto, unfolding(crate::specs::Readers::window_at))]
    pub fn window(&mut self) -> Result<Window, RowFault>
        ensures read { Reads result self.new (field.window_at self.old) }
        ensures still { IfErr result (λ fault. fault ≡ Wrong) }
    {
        Window::new(self.u32()? as u64).ok_or(RowFault::Wrong)
    }

    /// A rate of charge in basis points.
    #[tactic(auto, unfolding(crate::specs::Readers::rate_at))]
    pub fn rate(&mut self) -> Result<Bps, RowFault>
        ensures read { Reads result self.new (field.rate_at self.old) }
        ensures still { IfErr result (λ fault. fault ≡ Wrong) }
    {
        Ok(Bps(self.u16()?))
    }

    /// The name of a class or an account.
    #[tactic(auto, unfolding(crate::specs::Readers::name_at))]
    pub fn name(&mut self, alloc: Global) -> Result<Name, RowFault>
        ensures { Reads result self.new (field.name_at self.old) }
    {
        let text = self.text()?;
        Name::new(Label::from_slice(alloc, text)?).ok_or(RowFault::Wrong)
    }

    /// The text of a zone.
    #[tactic(auto, unfolding(crate::specs::Readers::zone_at))]
    pub fn zone(&mut self, alloc: Global) -> Result<ZoneText, RowFault>
        ensures { Reads result self.new (field.zone_at self.old) }
    {
        let text = self.text()?;
        ZoneText::new(Bytes::from_slice(alloc, text)?).ok_or(RowFault::Wrong)
    }

    /// The key of a household.
    #[tactic(auto, unfolding(crate::specs::Readers::household_key_at))]
    pub fn household_key(&mut self, alloc: Global) -> Result<HouseholdKey, RowFault>
        ensures { Reads result self.new (field.household_key_at self.old) }
    {
        let text = self.text()?;
        HouseholdKey::new(Bytes::from_slice(alloc, text)?).ok_or(RowFault::Wrong)
    }

    /// The key of a dealer.
    #[tactic(auto, unfolding(crate::specs::Readers::dealer_key_at))]
    pub fn dealer_key(&mut self, alloc: Global) -> Result<DealerKey, RowFault>
        ensures { Reads result self.new (field.dealer_key_at self.old) }
    {
        let text = self.text()?;
        DealerKey::new(Bytes::from_slice(alloc, text)?).ok_or(RowFault::Wrong)
    }

    /// Who bears a loss: 00 the fund, 01 the agent, 02 and the dealer.
    #[tactic(auto, unfolding(crate::specs::Readers::bearer_at))]
    pub fn bearer(&mut self) -> Result<Bearer, RowFault>
        ensures read { Reads result self.new (field.bearer_at self.old) }
        ensures still { IfErr result (λ fault. fault ≡ Wrong) }
    {
        match self.byte()? {
            0 => Ok(Bearer::Fund),
            1 => Ok(Bearer::Agent),
            2 => Ok(Bearer::Dealer(self.identifier()?)),
            _ => Err(RowFault::Wrong),
        }
    }
}
