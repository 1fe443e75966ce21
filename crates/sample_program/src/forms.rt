//! What the words after `--link` and `--run` ask for.

ghost use Rattle.std.specs.Prelude.{ℕ, ◌≡◌, ◌≤◌, map, string_bytes, length, None, Some, MatchOption};
ghost use Rattle.std.specs.List.{position_or_len};
ghost use Rattle.sample_program.specs.Forms as forms;
ghost use Rattle.sample_program.specs.Forms.{is_output};

use arg_scan::is_reserved;
use farm_types::limits::JOBS_MAX;

/// The most files that are linked.
const LINK_MAX: usize = JOBS_MAX;

/// The word before the image's name.
const OUTPUT: &str = "-o";

/// What is linked, and the name of the image.
#[derive(Clone, Copy, Debug)]
pub struct LinkForm<'a> {
    pub files: &'a [String],
    pub image: &'a String,
}

// How many words are before the first `-o`.
fn len_before_output(words: &[String]) -> usize
    ensures len { result ≡ position_or_len is_output (map string_bytes words.now) }
    ensures within { result ≤ length words.now }
{
    for (index, word) in words.iter().enumerate() {
        if word.as_str() == OUTPUT {
            return index;
        }
    }
    words.len()
}

/// What the words after `--link` ask for: 1 to `LINK_MAX` files, `-o`, and a name that doesn't end in `.farm~`.
pub fn link_form(words: &[String]) -> Option<LinkForm<'_>>
    ensures { MatchOption result (forms.link_form (map string_bytes words.now) ≡ None)
        (λ form. forms.link_form (map string_bytes words.now) ≡ Some (map string_bytes form.files.now, string_bytes form.image.now)) }
{
    let count = len_before_output(words);
    if words.len() - count != 2 {
        return None;
    }
    let image = &words[count + 1];
    if count == 0 || LINK_MAX < count || is_reserved(image.as_bytes()) {
        return None;
    }
    Some(LinkForm {
        files: &words[..count],
        image,
    })
}

/// What the words after `--run` ask for: an image.
pub fn run_form(words: &[String]) -> Option<&String>
    ensures { MatchOption result (forms.run_form (map string_bytes words.now) ≡ None)
        (λ image. forms.run_form (map string_bytes words.now) ≡ Some (string_bytes image.now)) }
{
    match words {
        [image] => Some(image),
        _ => None,
    }
}
