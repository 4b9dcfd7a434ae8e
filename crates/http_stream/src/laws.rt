//! What the definitions of a stream's items mean together.
ghost use Rattle.std.specs.Prelude.{◌≡◌, ℕ, Bool, List};
ghost use Rattle.std.specs.List.{flat_map};
ghost use Rattle.http_stream.specs.Stream.{IsItem, Items, Message, Pieces, Stream, StreamItem, Undecided, with_more};

/// The bytes determine the next item and what is left behind it, and no item is there where nothing is decided.
pub fn items_are_determined()
    ensures one { (ends : Message → Bool) (stream : Stream)
        (item other : StreamItem) (after rest : Stream)
        → IsItem ends stream item after → IsItem ends stream other rest
        → (item ≡ other) × (after ≡ rest) }
    ensures not_both { (ends : Message → Bool) (stream : Stream)
        (item : StreamItem) (after : Stream)
        → IsItem ends stream item after → ¬ (Undecided stream) }
{}

/// What is decided stays decided, however the stream goes on.
#[tactic(auto, using(crate::proofs::ItemLaws::item_more))]
pub fn items_stay()
    ensures { (ends : Message → Bool) (stream : Stream)
        (item : StreamItem) (after : Stream) (more : List ℕ)
        → IsItem ends stream item after
        → IsItem ends (with_more stream more) item (with_more after more) }
{}

/// In whatever pieces a stream comes, its items are those of the whole, and no other list of items is.
pub fn pieces_give_the_items_of_the_whole()
    ensures whole { (ends : Message → Bool) (stream : Stream)
        (pieces : List (List ℕ)) (items : List StreamItem) (after : Stream)
        → Pieces ends stream pieces items after
        → Items ends (with_more stream (flat_map (λ piece. piece) pieces)) items after }
    ensures only { (ends : Message → Bool) (stream : Stream)
        (items others : List StreamItem) (after rest : Stream)
        → Items ends stream items after → Undecided after
        → Items ends stream others rest → Undecided rest
        → (items ≡ others) × (after ≡ rest) }
{}
