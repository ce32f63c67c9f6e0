//! The command line.
ghost use Rattle.std.specs.Prelude.{◌≡◌};
ghost use Rattle.std.specs.Option.{option_map};
ghost use Rattle.wv_top.specs.Words.{is_operand, is_weave, side_named, side_of, weave_of, command_of, texts};

use wv_base::Side;

/// A folder that is woven, the folder that the classes are put into, and the side for which they are
/// woven.
#[derive(Clone, Copy, Debug)]
pub(crate) struct Command<'a> {
    pub(crate) folder: &'a str,
    pub(crate) out: &'a str,
    pub(crate) side: Side,
}

fn is_operand(word: &str) -> bool
    ensures { result ≡ is_operand word.now }
{
    match word.as_bytes() {
        [b'-', ..] => false,
        _ => true,
    }
}

/// Whether these words are `weave FOLDER --out DIR`.
fn is_weave(weave: &str, folder: &str, option: &str, out: &str) -> bool
    ensures { result ≡ is_weave weave.now folder.now option.now out.now }
{
    weave == "weave" && is_operand(folder) && option == "--out" && is_operand(out)
}

/// The side that a word names.
fn side_named(word: &str) -> Option<Side>
    ensures { result ≡ side_named word.now }
{
    match word {
        "client" => Some(Side::Client),
        "server" => Some(Side::Server),
        _ => None,
    }
}

/// The side that the words behind DIR give: `--side S` gives that side, and no words that of the
/// client.
fn side_of(words: &[String]) -> Option<Side>
    ensures { result ≡ side_of (texts words.now) }
{
    match words {
        [] => Some(Side::Client),
        [option, side] if option.as_str() == "--side" => side_named(side.as_str()),
        _ => None,
    }
}

/// The command that the words after the program's name give: `weave FOLDER --out DIR`, and maybe
/// `--side S` behind it.
#[tactic(auto, unfolding(crate::specs::Words::command_of))]
pub(crate) fn command_of(words: &[String]) -> Option<Command<'_>>
    ensures { option_map (λ c. weave_of c.folder.now c.out.now c.side) result ≡ command_of (texts words.now) }
{
    match words {
        [_, weave, folder, option, out, more @ ..]
            if is_weave(
                weave.as_str(),
                folder.as_str(),
                option.as_str(),
                out.as_str(),
            ) => {
            Some(Command {
                folder: folder.as_str(),
                out: out.as_str(),
                side: side_of(more)?,
            })
        }
        _ => None,
    }
}
