//! Where a subscription file is read.

ghost use Rattle.xp_arguments.specs.Sources.{IsSourceOf};

/// Where a subscription file is read.
#[derive(Clone, Copy)]
pub enum FileSource<'a> {
    StandardInput,
    /// The file of this name.
    Named(&'a str),
}

impl<'a> FileSource<'a> {
    /// Where the file is read that a word of the command line names: `-` is standard input.
    pub fn of(word: &'a str) -> FileSource<'a>
        ensures { IsSourceOf word.now result }
    {
        match word {
            "-" => FileSource::StandardInput,
            _ => FileSource::Named(word),
        }
    }
}
