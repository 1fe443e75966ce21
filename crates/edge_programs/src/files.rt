// The files of a run, in its folder.
ghost use Rattle.std.specs.Prelude.{◌≡◌, IfOk, IfErr};
ghost use Rattle.edge_programs.specs.Children.{input_path, output_path};
ghost use Rattle.edge_runs.specs.Commands.{NamesNoStream};
ghost use Rattle.edge_runs.specs.RunFolders.{place_of, bytes_if};

use edge_runs::{OBJECT_NAME, RunFolder, input_ext, source_name};
use edge_traits::{StationFault, has_output};
use farm_types::Word;
use std::io::Eprint;
use std::rt;

/// Makes the file of `Input` in the folder, if `Input` is one of the words, and answers its path.
pub fn input_file<R: rt::Files + Eprint>(
    folder: &RunFolder<'_, R>,
    words: &[Word],
    input: &[u8],
) -> Result<Option<String>, StationFault>
    ensures path { IfOk result (λ path. bytes_if path ≡ input_path (place_of folder.now) words.now) }
    ensures fault { IfErr result NamesNoStream }
{
    let Some(ext) = input_ext(words) else {
        return Ok(None);
    };
    let path = folder.name_of(source_name(ext))?;
    folder.write_file(path.as_str(), input)?;
    Ok(Some(path))
}

/// The path in the folder of the file of `Output`, if `Output` is one of the words. The program makes the file.
pub fn output_path<R: rt::Files + Eprint>(
    folder: &RunFolder<'_, R>,
    words: &[Word],
) -> Result<Option<String>, StationFault>
    ensures path { IfOk result (λ path. bytes_if path ≡ output_path (place_of folder.now) words.now) }
    ensures fault { IfErr result NamesNoStream }
{
    if !has_output(words) {
        return Ok(None);
    }
    Ok(Some(folder.name_of(OBJECT_NAME)?))
}
