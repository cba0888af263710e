//! Laws on what words ask for.
ghost use Rattle.std.specs.Prelude.{◌≡◌, map, string_bytes};
ghost use Rattle.command_words.specs.Requests.{Request, Asks};

use crate::requests::request;

/// Words ask for at most one request.
pub fn words_ask_for_one(words: &[String])
    ensures { (first second : Request) → Asks (map string_bytes words.now) first → Asks (map string_bytes words.now) second → first ≡ second }
{
    let _ = request(words);
}
