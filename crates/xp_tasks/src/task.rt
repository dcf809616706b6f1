ghost use Rattle.std.specs.Prelude.{◌≡◌, ◌↔◌, Some};
ghost use Rattle.xp_tasks.specs.Tasks.{word_of};

/// The tasks of the program.
#[derive(Clone, Copy, PartialEq, Eq)]
pub enum Task {
    /// Check a subscription file.
    Check,
    /// Replay a script from standard input.
    Replay,
}

impl Task {
    ghost use Rattle.xp_tasks.specs.declared.task.Task.{Task};

    /// Its word on the command line.
    pub fn word<'a>(self) -> &'a str
        ensures { result.now ≡ word_of self }
    {
        match self {
            Task::Check => "check",
            Task::Replay => "replay",
        }
    }

    /// The task of a word of the command line.
    pub fn named(word: &str) -> Option<Task>
        ensures { (task : Task) → (result ≡ Some task) ↔ (word.now ≡ word_of task) }
    {
        [Task::Check, Task::Replay]
            .into_iter()
            .find(|task| word == task.word())
    }
}
