// Words compare without letter case: ASCII letters only, so a byte above 127 matches only itself.
ghost use Rattle.std.specs.Prelude.{◌≡◌, Decides};
ghost use Rattle.grammar.specs.Words.{SameWord, same_word};

// Whether two words are the same but for the case of their letters.
pub fn same_word(a: &[u8], b: &[u8]) -> bool
    ensures value { result ≡ same_word a.now b.now }
    ensures exact { Decides result (SameWord a.now b.now) }
{
    a.eq_ignore_ascii_case(b)
}
