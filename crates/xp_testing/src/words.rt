//! Words by which a test tells what is to be done.

/// What follows the key in the first word that begins with it.
pub fn setting<'a>(words: &'a str, key: &str) -> Option<&'a str> {
    for word in words.split_whitespace() {
        if let Some(rest) = word.strip_prefix(key) {
            return Some(rest);
        }
    }
    None
}

/// The number that follows the key, or the other number where none does.
pub fn number(words: &str, key: &str, otherwise: u64) -> u64 {
    match setting(words, key) {
        Some(text) => text.parse().unwrap_or(otherwise),
        None => otherwise,
    }
}
