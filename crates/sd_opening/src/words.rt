ghost use Rattle.std.specs.Prelude.{◌≡◌, ◌≤◌, ◌<◌, length, map, string_bytes, option_map, true, IsTrue, IfSome, None, Some, ◌&&◌, if◌then◌else◌, ◌==◌, codes};
ghost use Rattle.sd_model_call.specs.Call.{form, is_file_word as names_file, packets_in, run_form, word_form, Proxy, Serve, Drill, Replay};
ghost use Rattle.sd_opening.specs.Words.{form_view};
ghost use Rattle.std.specs.Cmp.Lexicographic.{pointwise};

use arrayvec::ArrayVec;
use sd_outside::Name;
use sd_script::MOST_PACKETS;

/// What the words ask for.
#[derive(Debug, Drop)]
pub enum Form {
    /// To execute a script by a settings file.
    Replay { settings: Name, script: Name },
    /// To run the server by a settings file.
    Serve { settings: Name },
    /// To run the proxy by a settings file.
    Proxy { settings: Name },
    /// To execute the made script of so many packets, 1 to 100,000.
    Drill { packets: u32 },
}

/// Whether a word names a file: 1 to 255 bytes, the first of which isn't `-`.
fn is_file_word(word: &str) -> bool
    ensures name { result ≡ names_file word.now }
    ensures short { IsTrue result → length word.now ≤ 255 }
{
    let bytes = word.as_bytes();
    match bytes.first() {
        Some(first) => *first != b'-' && bytes.len() <= 255,
        None => false,
    }
}

/// A word as a name.
fn name_of(word: &str) -> Name
    requires { length word.now ≤ 255 }
    ensures { result.items ≡ word.now }
{
    let mut name = ArrayVec::new();
    name.try_extend_from_slice(word.as_bytes()).unwrap();
    name
}

/// A replay by the files that two words name.
fn replay_of(settings: &str, script: &str) -> Option<Form>
    ensures { option_map form_view result ≡ (if names_file settings.now && names_file script.now then Some (Replay settings.now script.now) else None) }
{
    if !is_file_word(settings) || !is_file_word(script) {
        return None;
    }
    Some(Form::Replay {
        settings: name_of(settings),
        script: name_of(script),
    })
}

/// A server by the file that a word names.
fn server_of(settings: &str) -> Option<Form>
    ensures { option_map form_view result ≡ run_form Serve settings.now }
{
    if !is_file_word(settings) {
        return None;
    }
    Some(Form::Serve {
        settings: name_of(settings),
    })
}

/// A proxy by the file that a word names.
fn proxy_of(settings: &str) -> Option<Form>
    ensures { option_map form_view result ≡ run_form Proxy settings.now }
{
    if !is_file_word(settings) {
        return None;
    }
    Some(Form::Proxy {
        settings: name_of(settings),
    })
}

/// How many packets a word asks for: 1 to 100,000, in decimal digits, the first of which isn't 0.
fn packets_of(word: &str) -> Option<u32>
    ensures { result ≡ packets_in word.now }
{
    let [b'1'..=b'9', ..] = word.as_bytes() else {
        return None;
    };
    let packets = word.parse::<u32>().ok()?;
    (packets <= MOST_PACKETS).then_some(packets)
}

/// A drill of as many packets as a word asks for.
fn drill_of(packets: &str) -> Option<Form>
    ensures { option_map form_view result ≡ option_map Drill (packets_in packets.now) }
{
    let packets = packets_of(packets)?;
    Some(Form::Drill { packets })
}

/// What a name and one word ask for.
fn word_of(name: &str, word: &str) -> Option<Form>
    ensures { option_map form_view result ≡ word_form name.now word.now }
{
    if name == "drill" {
        drill_of(word)
    } else if name == "serve" {
        server_of(word)
    } else if name == "proxy" {
        proxy_of(word)
    } else {
        None
    }
}

/// What a name and two words ask for.
fn words_of(name: &str, settings: &str, script: &str) -> Option<Form>
    ensures { option_map form_view result ≡ (if pointwise ◌==◌ name.now (codes "replay") then if names_file settings.now && names_file script.now then Some (Replay settings.now script.now) else None else None) }
{
    if name == "replay" {
        replay_of(settings, script)
    } else {
        None
    }
}

/// What the words ask for, where they are of a form that is built.
pub fn form_of(words: &[String]) -> Option<Form>
    ensures { option_map form_view result ≡ form (map (λ w. string_bytes w) words.now) }
{
    match words {
        [name, word] => word_of(name.as_str(), word.as_str()),
        [name, settings, script] => words_of(name.as_str(), settings.as_str(), script.as_str()),
        _ => None,
    }
}
