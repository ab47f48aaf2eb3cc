// Numbers among the words: decimal digits alone.
ghost use Rattle.std.specs.Prelude.{◌≡◌, ◌≤◌, ◌^◌, ◌%◌, IfSome, option_map, option_and_then, List, ℕ};
ghost use Rattle.std.specs.Borrow.{Bor};
ghost use Rattle.call_words.specs.Words.{even, number_or, within};

use script_text::number_up_to;

/// The number that a word writes, where it lies within bounds.
pub fn number_within(word: &[u8], least: u32, most: u32) -> Option<u32>
    ensures value { result ≡ within least most word.now }
    ensures bounds { IfSome result (λ n. (least ≤ n) × (n ≤ most)) }
{
    match number_up_to(word, u64::from(most)) {
        Some(number) if u64::from(least) <= number => Some(number as u32),
        _ => None,
    }
}

/// The number that an option gives, or its default where it was not given.
pub fn number_or(text: Option<&str>, default: u32, least: u32, most: u32) -> Option<u32>
    requires default { (least ≤ default) × (default ≤ most) }
    ensures value { result ≡ number_or default least most (option_map (λ (s : Bor (List ℕ)). s.now) text.entry) }
    ensures bounds { IfSome result (λ n. (least ≤ n) × (n ≤ most)) }
{
    match text {
        None => Some(default),
        Some(text) => number_within(text.as_bytes(), least, most),
    }
}

/// The number, where it is even.
pub fn even(number: Option<u32>) -> Option<u32>
    ensures value { result ≡ option_and_then even number }
    ensures even { IfSome result (λ n. n % 2 ≡ 0) }
    ensures same { IfSome result (λ n. number ≡ Some n) }
{
    match number {
        Some(number) if number % 2 == 0 => Some(number),
        _ => None,
    }
}
