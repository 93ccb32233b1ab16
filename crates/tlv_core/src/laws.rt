//! Laws of the grammar, for the proofs of the crates above. They do nothing.
ghost use Rattle.std.specs.Prelude.{◌≡◌, ℕ, ◌+◌, false, true, List, ◌∷◌, ◌++◌, length, Some};
ghost use Rattle.ep_base.specs.Objects.Forest.{Forest, spelling, nodes, IsForest, is_constructed, Reads};
ghost use Rattle.ep_base.specs.Objects.Reading.{forest_of};
ghost use Rattle.ep_base.specs.declared.objects.Node.{Node};
ghost use Rattle.tlv_core.specs.Written.{SpellsTag, SpellsLength};

/// The list of objects that bytes spell, as a function, is the grammar: for all bytes, and for numbers that are no
/// bytes too.
pub fn one_reading()
    ensures all { (f : Forest) → IsForest 0 f → forest_of (spelling f) ≡ Some f }
    ensures only { (bytes : List ℕ) (f : Forest) → forest_of bytes ≡ Some f → IsForest 0 f × (bytes ≡ spelling f) }
{}

/// What `write_tag` and `write_length` append is read as that tag and length, whatever objects follow.
pub fn written_again()
    ensures primitive { (n : ℕ) (tag len value : List ℕ) (rest : Forest) →
        SpellsTag n tag → SpellsLength (length value) len → is_constructed tag ≡ false → IsForest 0 rest →
        Reads (tag ++ (len ++ (value ++ spelling rest)))
        ((record { depth = 0; tag = n; constructed = false; at = length tag + length len; len = length value })
        ∷ nodes 0 (length tag + length len + length value) rest) }
    ensures constructed { (n : ℕ) (tag len : List ℕ) (inner rest : Forest) →
        SpellsTag n tag → SpellsLength (length (spelling inner)) len → is_constructed tag ≡ true → IsForest 1 inner → IsForest 0 rest →
        Reads (tag ++ (len ++ (spelling inner ++ spelling rest)))
        ((record { depth = 0; tag = n; constructed = true; at = length tag + length len; len = length (spelling inner) })
        ∷ (nodes 1 (length tag + length len) inner ++ nodes 0 (length tag + length len + length (spelling inner)) rest)) }
{}
