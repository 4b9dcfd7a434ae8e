//! Each field is read from its own spelling, whatever follows it, and from nothing else.
ghost use Rattle.std.specs.Prelude.{◌<◌, ◌≤◌, ◌^◌, length};
ghost use Rattle.agent_events.specs.Fields.{is_label, is_zone_text, is_household_key, is_dealer_key};
ghost use Rattle.event_rows.specs.Exact.{IsField};
ghost use Rattle.event_rows.specs.Spelling.{two_bytes, four_bytes, eight_bytes, sixteen_bytes, flag, text, bearer};
ghost use Rattle.event_rows.specs.Ranges as range;
ghost use Rattle.event_rows.specs.Readers as field;

/// The numbers, each in its range.
pub fn numbers_are_exact()
    ensures identifier { IsField four_bytes range.IsIdentifier field.identifier_at }
    ensures identifier_or_none { IsField four_bytes range.IsIdentifierOrNone
        field.identifier_or_none_at }
    ensures reference { IsField eight_bytes range.IsReference field.reference_at }
    ensures moment { IsField eight_bytes range.IsMoment field.moment_at }
    ensures day { IsField four_bytes range.IsDay field.day_at }
    ensures amount { IsField eight_bytes range.IsAmount field.amount_at }
    ensures minimum { IsField eight_bytes range.IsMinimum field.minimum_at }
    ensures nav { IsField eight_bytes range.IsNav field.nav_at }
    ensures quantity { IsField eight_bytes range.IsQuantity field.quantity_at }
    ensures dividend_rate { IsField eight_bytes range.IsDividendRate field.dividend_rate_at }
    ensures corrected_rate { IsField eight_bytes range.IsCorrectedRate field.corrected_rate_at }
    ensures time_of_day { IsField two_bytes range.IsTimeOfDay field.time_of_day_at }
    ensures window { IsField four_bytes range.IsWindow field.window_at }
    ensures rate { IsField two_bytes range.IsBps field.rate_at }
    ensures sixteen { IsField sixteen_bytes (λ n. n < 2 ^ 128) field.sixteen_at }
{}

/// The flags, the texts in their forms and the bearers.
pub fn texts_are_exact()
    ensures flag { IsField flag (λ answer. Unit {0}) field.flag_at }
    ensures text { IsField text (λ bytes. length bytes ≤ 65535) field.text_at }
    ensures name { IsField text (range.Passes is_label) field.name_at }
    ensures zone { IsField text (range.Passes is_zone_text) field.zone_at }
    ensures household_key { IsField text (range.Passes is_household_key) field.household_key_at }
    ensures dealer_key { IsField text (range.Passes is_dealer_key) field.dealer_key_at }
    ensures bearer { IsField bearer range.IsBearer field.bearer_at }
{}
