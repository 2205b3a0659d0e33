//! Words that begin with a dash.

/// Whether the words of a command ask for help.
pub(super) fn asks_help(words: &[String]) -> bool {
    for word in words {
        match word.as_str() {
            "--" => return false,
            "--help" | "-h" => return true,
            _ => {}
        }
    }
    false
}

/// Whether the words of a command give an option, alone or with its value after `=`. All words
/// after `--` are taken as they are.
pub(super) fn gives(words: &[String], option: &str) -> bool {
    for word in words {
        let word = word.as_str();
        if word == "--" {
            return false;
        }
        if option_of(word) == option {
            return true;
        }
    }
    false
}

/// Whether the words of a command give an option a value after `=`. All words after `--` are taken
/// as they are.
pub(super) fn gives_value(words: &[String], option: &str) -> bool {
    for word in words {
        let word = word.as_str();
        if word == "--" {
            return false;
        }
        if word != option && option_of(word) == option {
            return true;
        }
    }
    false
}

/// Whether one of a command's words begins with a dash and is no option that its usage shows. All
/// words after `--` are taken as they are.
pub(super) fn has_dashed_value(words: &[String], usage: &str) -> bool {
    for word in words {
        let word = word.as_str();
        if word == "--" {
            return false;
        }
        if word != "-" && word.starts_with("-") && !shows(usage, option_of(word)) {
            return true;
        }
    }
    false
}

/// The option of a word, without the value that stands after `=`.
fn option_of(word: &str) -> &str {
    match word.split_once("=") {
        Some((option, _)) => option,
        None => word,
    }
}

fn shows(usage: &str, option: &str) -> bool {
    for part in usage.split_whitespace() {
        if without_brackets(part) == option {
            return true;
        }
    }
    false
}

/// A part of a usage without the brackets before and behind it, and without a value that need not
/// be given, as in `[--option[=value]]`.
fn without_brackets(part: &str) -> &str {
    let part = part.strip_prefix("[").unwrap_or(part);
    let part = part.strip_prefix("(").unwrap_or(part);
    match part.split_once("[=") {
        Some((option, _)) => option,
        None => part.strip_suffix("]").unwrap_or(part),
    }
}
