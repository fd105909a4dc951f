//! The lines of a trace, which say when events happened and in which state the sender was then.
ghost use Rattle.std.specs.Prelude.{◌≡◌, ◌<◌, length, IfSome};
ghost use Rattle.pd_layout.specs.Traces.{is_single_trace_line, is_trace_body_at, is_state_and_facts_at, find_first_space, is_seconds_with_six_decimals, is_point_and_digits, are_digits, is_tcp_state_name_but_syn_sent, is_fact, is_sequence_or_window_fact, is_count_fact, is_connection_timer_or_recovery_fact, are_facts, is_value_after_name_with_colon, is_nonempty_letters_digits_and_points, are_letters_digits_and_points};

/// The opening of a line of a trace.
const OPENING: &[u8] = b"//= at ";

/// Whether a line is one of a trace: `//= at`, seconds with six decimals, the name of a state, and facts, each with a
/// colon and its value, with one blank before each word.
pub fn is_single_trace_line(line: &[u8]) -> bool
    ensures { result ≡ is_single_trace_line line.now }
{
    // The first octet shows of most lines that they are none.
    let [b'/', ..] = line else {
        return false;
    };
    match line.strip_prefix(OPENING) {
        Some(trace_body) => is_moment_state_and_facts(trace_body),
        None => false,
    }
}

/// Whether these are a moment, a state and facts.
fn is_moment_state_and_facts(words: &[u8]) -> bool
    ensures { result ≡ is_trace_body_at (find_first_space words.now) words.now }
{
    match find_first_space(words) {
        Some(at) => is_seconds_with_six_decimals(&words[..at])
            && is_state_and_facts(&words[at + 1..]),
        None => false,
    }
}

/// Whether these are a state and facts.
fn is_state_and_facts(words: &[u8]) -> bool
    ensures { result ≡ is_state_and_facts_at (find_first_space words.now) words.now }
{
    match find_first_space(words) {
        Some(at) => is_tcp_state_name_but_syn_sent(&words[..at]) && are_facts(&words[at + 1..]),
        None => is_tcp_state_name_but_syn_sent(words),
    }
}

/// Whether these are facts, parted by single blanks.
fn are_facts(words: &[u8]) -> bool
    ensures { result ≡ are_facts words.now }
{
    words
        .split(|octet| *octet == b' ')
        .all(|word| is_fact(word))
}

/// Where the first blank stands.
fn find_first_space(octets: &[u8]) -> Option<usize>
    ensures place { result ≡ find_first_space octets.now }
    ensures within { IfSome result (λ at. at < length octets.now) }
{
    octets.iter().position(|octet| *octet == b' ')
}

/// Whether a word is seconds with six decimals.
fn is_seconds_with_six_decimals(word: &[u8]) -> bool
    ensures { result ≡ is_seconds_with_six_decimals word.now }
{
    let point = word.len().saturating_sub(7);
    point > 0 && are_digits(&word[..point]) && is_point_and_digits(&word[point..])
}

/// Whether a word is a point and digits.
fn is_point_and_digits(word: &[u8]) -> bool
    ensures { result ≡ is_point_and_digits word.now }
{
    match word {
        [b'.', digits @ ..] => are_digits(digits),
        _ => false,
    }
}

fn are_digits(word: &[u8]) -> bool
    ensures { result ≡ are_digits word.now }
{
    word.iter().all(|octet| octet.is_ascii_digit())
}

/// Whether a word is the name of a state.
fn is_tcp_state_name_but_syn_sent(word: &[u8]) -> bool
    ensures { result ≡ is_tcp_state_name_but_syn_sent word.now }
{
    word == b"CLOSED".as_slice()
        || word == b"LISTEN".as_slice()
        || word == b"SYN-RECEIVED".as_slice()
        || word == b"ESTABLISHED".as_slice()
        || word == b"FIN-WAIT-1".as_slice()
        || word == b"FIN-WAIT-2".as_slice()
        || word == b"CLOSE-WAIT".as_slice()
        || word == b"CLOSING".as_slice()
        || word == b"LAST-ACK".as_slice()
        || word == b"TIME-WAIT".as_slice()
}

/// Whether a word is the name of a fact, a colon and a value.
fn is_fact(word: &[u8]) -> bool
    ensures { result ≡ is_fact word.now }
{
    is_sequence_or_window_fact(word)
        || is_count_fact(word)
        || is_connection_timer_or_recovery_fact(word)
}

/// Whether a word is the name of an octet number or a window, a colon and a value.
fn is_sequence_or_window_fact(word: &[u8]) -> bool
    ensures { result ≡ is_sequence_or_window_fact word.now }
{
    is_value_after_name_with_colon(word, b"una:")
        || is_value_after_name_with_colon(word, b"next:")
        || is_value_after_name_with_colon(word, b"top:")
        || is_value_after_name_with_colon(word, b"end:")
        || is_value_after_name_with_colon(word, b"cwnd:")
        || is_value_after_name_with_colon(word, b"ssthresh:")
        || is_value_after_name_with_colon(word, b"rwnd:")
}

/// Whether a word is the name of a count, a colon and a value.
fn is_count_fact(word: &[u8]) -> bool
    ensures { result ≡ is_count_fact word.now }
{
    is_value_after_name_with_colon(word, b"FlightSize:")
        || is_value_after_name_with_colon(word, b"pipe:")
        || is_value_after_name_with_colon(word, b"prr_delivered:")
        || is_value_after_name_with_colon(word, b"prr_out:")
        || is_value_after_name_with_colon(word, b"DupAcks:")
}

/// Whether a word is the name of another fact, a colon and a value.
fn is_connection_timer_or_recovery_fact(word: &[u8]) -> bool
    ensures { result ≡ is_connection_timer_or_recovery_fact word.now }
{
    is_value_after_name_with_colon(word, b"connection:")
        || is_value_after_name_with_colon(word, b"RTO:")
        || is_value_after_name_with_colon(word, b"expiry:")
        || is_value_after_name_with_colon(word, b"recovery:")
        || is_value_after_name_with_colon(word, b"sent_by:")
}

/// Whether a word is this name and a value.
fn is_value_after_name_with_colon(word: &[u8], name: &[u8]) -> bool
    ensures { result ≡ is_value_after_name_with_colon word.now name.now }
{
    match word.strip_prefix(name) {
        Some(value) => is_nonempty_letters_digits_and_points(value),
        None => false,
    }
}

/// Whether a word is letters, digits and points, at least one.
fn is_nonempty_letters_digits_and_points(word: &[u8]) -> bool
    ensures { result ≡ is_nonempty_letters_digits_and_points word.now }
{
    word.len() > 0 && are_letters_digits_and_points(word)
}

/// Whether a word is letters, digits and points.
fn are_letters_digits_and_points(word: &[u8]) -> bool
    ensures { result ≡ are_letters_digits_and_points word.now }
{
    word.iter()
        .all(|octet| octet.is_ascii_alphanumeric() || *octet == b'.')
}
