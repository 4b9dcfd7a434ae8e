//! Worked examples of comma-separated values, as laws: the checker computes each.
ghost use Rattle.std.specs.Prelude.{◌≡◌, [], ◌∷◌, ◌++◌, codes};
ghost use Rattle.script_text.specs.Rows.{records_of, line_of};

/// What a text reads as.
pub fn reading_examples()
    ensures items { records_of (codes "1719838800,op-desk000001,show,101\n1719838801,,sheet")
        ≡ (codes "1719838800" ∷ codes "op-desk000001" ∷ codes "show" ∷ codes "101" ∷ [])
        ∷ (codes "1719838801" ∷ [] ∷ codes "sheet" ∷ []) ∷ [] }
    ensures nothing { records_of [] ≡ [] }
    ensures lines_without_fields { records_of (codes "\r\n\n") ≡ [] }
    ensures ends_of_lines { records_of (codes "a\r\nb\nc\rd")
        ≡ (codes "a" ∷ []) ∷ (codes "b" ∷ []) ∷ (codes "c" ∷ []) ∷ (codes "d" ∷ []) ∷ [] }
    ensures byte_order_mark { records_of (239 ∷ 187 ∷ 191 ∷ codes "a\n") ≡ (codes "a" ∷ []) ∷ [] }
    ensures quotes { records_of (codes "\"a,b\",\"c\"\"d\"\n")
        ≡ (codes "a,b" ∷ codes "c\"d" ∷ []) ∷ [] }
    ensures quote_left_open { records_of (codes "\"a,b\n") ≡ (codes "a,b\n" ∷ []) ∷ [] }
{}

/// What a record is written as.
pub fn printing_examples()
    ensures reply { line_of (codes "ok" ∷ codes "class" ∷ codes "14" ∷ []) ≡ codes "ok,class,14\n" }
    ensures empty_field { line_of (codes "ok" ∷ [] ∷ []) ≡ codes "ok,\n" }
    ensures one_empty_field { line_of ([] ∷ []) ≡ codes "\"\"\n" }
    ensures quotes { line_of (codes "a,b" ∷ codes "c\"d" ∷ codes "e\nf" ∷ [])
        ≡ codes "\"a,b\",\"c\"\"d\",\"e\nf\"\n" }
{}
