ghost use Rattle.std.specs.Prelude.{◌≡◌, ◌≤◌};

/// The six bounds under which calls are listed and run.
#[derive(Clone, Copy, Debug, PartialEq, Eq)]
pub struct Bounds {
    /// An integer input of n bits lies from -2^(n-1) to 2^(n-1) - 1; from 1 to 64.
    pub int_bits: u8,
    /// The greatest length of an input string, list or dict; at most 8.
    pub max_len: u8,
    /// An input character has a code point below 2^n; from 7 to 15.
    pub char_bits: u8,
    /// A constructor call of an input stands inside at most so many others; at most 4.
    pub max_nest: u8,
    /// The steps of one activity; from 1 to 100,000.
    pub max_steps: u32,
    /// The nested calls, and the nested comparisons; from 1 to 200.
    pub max_depth: u8,
    ghost int_bits_in_range: { (1 ≤ int_bits) × (int_bits ≤ 64) },
    ghost max_len_in_range: { max_len ≤ 8 },
    ghost char_bits_in_range: { (7 ≤ char_bits) × (char_bits ≤ 15) },
    ghost max_nest_in_range: { max_nest ≤ 4 },
    ghost max_steps_in_range: { (1 ≤ max_steps) × (max_steps ≤ 100000) },
    ghost max_depth_in_range: { (1 ≤ max_depth) × (max_depth ≤ 200) },
}

impl Bounds {
    /// The bounds where no option changes them.
    pub fn standard() -> Bounds
        ensures int_bits { result.int_bits ≡ 8 }
        ensures max_len { result.max_len ≡ 3 }
        ensures char_bits { result.char_bits ≡ 7 }
        ensures max_nest { result.max_nest ≡ 2 }
        ensures max_steps { result.max_steps ≡ 2000 }
        ensures max_depth { result.max_depth ≡ 20 }
    {
        Bounds {
            int_bits: 8,
            max_len: 3,
            char_bits: 7,
            max_nest: 2,
            max_steps: 2000,
            max_depth: 20,
        }
    }
}
