//! The words of the commands.
ghost use Rattle.std.specs.Prelude.{◌≡◌};
ghost use Rattle.iddqd_text.specs.Texts.{is_text};
ghost use Rattle.iddqd_text.specs.Words.{word_of, word_without_key};

/// The word that begins a line.
#[derive(Clone, Copy, Debug, PartialEq, Eq, Drop)]
pub enum Word {
    New,
    Get1,
    Get2,
    Get3,
    Del1,
    Both,
    Del2,
    Del3,
    DelBoth,
    Len,
    Put,
    Reserve,
    Fit,
    Clear,
    List,
    Replace1,
    Set1,
    EntPut,
    EntDel,
    OrPut,
    AddAll,
}

/// Returns the word that the bytes spell, or `None` if they spell none.
pub fn word_of(bytes: &[u8]) -> Option<Word>
    ensures { result ≡ word_of bytes.now }
{
    // The words are compared one after another, because the prover does not manage a match on the bytes of so many
    // words.
    if is_word(bytes, b"new") {
        Some(Word::New)
    } else if is_word(bytes, b"get1") {
        Some(Word::Get1)
    } else if is_word(bytes, b"get2") {
        Some(Word::Get2)
    } else if is_word(bytes, b"get3") {
        Some(Word::Get3)
    } else if is_word(bytes, b"both") {
        Some(Word::Both)
    } else if is_word(bytes, b"del1") {
        Some(Word::Del1)
    } else if is_word(bytes, b"del2") {
        Some(Word::Del2)
    } else if is_word(bytes, b"del3") {
        Some(Word::Del3)
    } else if is_word(bytes, b"delboth") {
        Some(Word::DelBoth)
    } else if is_word(bytes, b"put") {
        Some(Word::Put)
    } else if is_word(bytes, b"replace1") {
        Some(Word::Replace1)
    } else if is_word(bytes, b"set1") {
        Some(Word::Set1)
    } else if is_word(bytes, b"entput") {
        Some(Word::EntPut)
    } else if is_word(bytes, b"entdel") {
        Some(Word::EntDel)
    } else if is_word(bytes, b"orput") {
        Some(Word::OrPut)
    } else {
        word_without_key(bytes)
    }
}

/// Returns the word without a key that the bytes spell, or `None` if they spell none.
fn word_without_key(bytes: &[u8]) -> Option<Word>
    ensures { result ≡ word_without_key bytes.now }
{
    if is_word(bytes, b"len") {
        Some(Word::Len)
    } else if is_word(bytes, b"reserve") {
        Some(Word::Reserve)
    } else if is_word(bytes, b"fit") {
        Some(Word::Fit)
    } else if is_word(bytes, b"clear") {
        Some(Word::Clear)
    } else if is_word(bytes, b"list") {
        Some(Word::List)
    } else if is_word(bytes, b"addall") {
        Some(Word::AddAll)
    } else {
        None
    }
}

/// Returns whether the bytes are those of a word. It is inlined, so the compiler knows the word's length and unrolls
/// the loop.
#[inline(always)]
#[tactic(auto, using(crate::proofs::Spelling::goes_on, crate::proofs::Spelling::ends_so, crate::proofs::Spelling::differs, crate::proofs::Spelling::differs_in_length))]
fn is_word(bytes: &[u8], word: &[u8]) -> bool
    ensures { result ≡ is_text bytes.now word.now }
{
    if bytes.len() != word.len() {
        return false;
    }
    let mut at = 0;
    while at < word.len() {
        if bytes[at] != word[at] {
            return false;
        }
        at += 1;
    }
    true
}
