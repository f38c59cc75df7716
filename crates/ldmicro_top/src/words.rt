//! What the words of the command line ask for.

ghost use Rattle.std.specs.Prelude.{◌≡◌, [], ◌∷◌, map};
ghost use Rattle.std.specs.Rc.{rc_str_bytes};
ghost use Rattle.ldmicro_top.specs.Command.{command_of, asked};

use std::rc::RcStr;

/// What words ask for.
#[derive(Clone, Copy, Debug)]
pub enum Request<'a> {
    /// `/c source dest`: a source is compiled to a destination.
    Compile {
        source: &'a str,
        dest: &'a str,
    },
    /// `/s source trace`: a source is simulated over a trace.
    Simulate {
        source: &'a str,
        trace: &'a str,
    },
    /// `/r source file trace`: a file of a source's code is run over a trace.
    Replay {
        source: &'a str,
        file: &'a str,
        trace: &'a str,
    },
    /// Nothing that is built.
    Other,
}

/// What the words ask for.
pub fn requested(words: &[RcStr]) -> Request<'_>
    ensures { asked result ≡ command_of (map rc_str_bytes words.now) }
{
    match words {
        [word, source, second] => request_of_two(word.as_str(), source.as_str(), second.as_str()),
        [word, source, file, trace] if word.as_str() == "/r" => Request::Replay {
            source: source.as_str(),
            file: file.as_str(),
            trace: trace.as_str(),
        },
        _ => Request::Other,
    }
}

/// What a word and two names of files ask for.
fn request_of_two<'a>(word: &str, source: &'a str, second: &'a str) -> Request<'a>
    ensures { asked result ≡ command_of (word.now ∷ source.now ∷ second.now ∷ []) }
{
    match word {
        "/c" => Request::Compile {
            source,
            dest: second,
        },
        "/s" => Request::Simulate {
            source,
            trace: second,
        },
        _ => Request::Other,
    }
}
