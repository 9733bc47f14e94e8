//! The laws of the words, and of the two layouts of the health word.
ghost use Rattle.std.specs.Prelude.{◌≡◌, ◌+◌, ◌-◌, ◌<◌, ◌^◌, ◌↔◌, ℕ};
ghost use Rattle.tko_model.specs.Ranges.{IsWithin};
ghost use Rattle.tko_model.specs.Settings.{Settings};
ghost use Rattle.tko_model.specs.declared.layout.Layout.TheVariants as layout;
ghost use Rattle.tko_model.specs.declared.mark.Mark.{Mark};
ghost use Rattle.tko_word.specs.Words.{IsMark, IsWord, IsWordIn, health_word, one_slot, server_in, slot_over_mark, soft_word, word_minus, word_plus};

/// No two pairs of a mark and a stamp have one health word, and no two pairs of counts one soft
/// word. Two health words are one exactly where they hold the same mark and stamp.
pub fn one_reading()
    ensures health { (one other : Mark) (first second : ℕ) → IsMark one → IsMark other
        → health_word one first ≡ health_word other second → (one ≡ other) × (first ≡ second) }
    ensures soft { (firm held other_firm other_held : ℕ) → firm < 2 ^ 32 → other_firm < 2 ^ 32
        → soft_word firm held ≡ soft_word other_firm other_held
        → (firm ≡ other_firm) × (held ≡ other_held) }
    ensures same { (one other : ℕ) → IsWord one → IsWord other
        → (one ≡ other) ↔ (server_in one ≡ server_in other) }
{}

/// What one addition or subtraction of 64 bits, which wraps, makes of the counts of a soft word:
/// reserving a slot, settling a mark, loosening one, and giving a slot back.
pub fn changed_counts()
    ensures reserve { (firm held : ℕ) → firm < 2 ^ 32 → held + 1 < 2 ^ 32
        → word_plus (soft_word firm held) one_slot ≡ soft_word firm (held + 1) }
    ensures settle { (firm held : ℕ) → firm + 1 < 2 ^ 32 → 0 < held → held < 2 ^ 32
        → word_minus (soft_word firm held) slot_over_mark ≡ soft_word (firm + 1) (held - 1) }
    ensures loosen { (firm held : ℕ) → 0 < firm → firm < 2 ^ 32 → held + 1 < 2 ^ 32
        → word_plus (soft_word firm held) slot_over_mark ≡ soft_word (firm - 1) (held + 1) }
    ensures give { (firm held : ℕ) → firm < 2 ^ 32 → 0 < held → held < 2 ^ 32
        → word_minus (soft_word firm held) one_slot ≡ soft_word firm (held - 1) }
{}

/// Settings that pass in the first layout pass in the second, and their words of the first are
/// words of the second. In both layouts a word holds the same mark and stamp.
pub fn one_in_two()
    ensures settings { (s : Settings) → IsWithin layout.One s → IsWithin layout.Two s }
    ensures words { (s : Settings) (word : ℕ) → IsWithin layout.One s
        → IsWordIn layout.One s word → IsWordIn layout.Two s word }
    ensures reading { (s : Settings) (word : ℕ)
        (first : IsWordIn layout.One s word) (second : IsWordIn layout.Two s word)
        → (first.mark ≡ second.mark) × (first.stamp ≡ second.stamp) }
{}
