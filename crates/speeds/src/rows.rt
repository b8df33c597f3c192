// The rows of calls that are done where no others are named.

/// A call a row, as `Call::read` reads it.
pub const ROWS: [&str; 20] = [
    "split ,",
    "split <|>",
    "split",
    "rsplit ,",
    "rsplit <|>",
    "splitlines",
    "find Kattegat",
    "find ~",
    "rfind Kattegat",
    "rfind ~",
    "count ,",
    "count <|>",
    "replace , <|>",
    "replace <|> ,",
    "replace , ;",
    "translate",
    "translate aei",
    // 64 bytes: what is left are small letters, separators and whitespace
    "translate ABCDEFGHIJKLMNOPQRSTUVWXYZ0123456789!\"#$%&'()*+-./:=>?@[\\]^_`{}~",
    "join , ;",
    "script Kattegat",
];
