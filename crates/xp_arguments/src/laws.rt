//! A law of command lines: the contract is the law, and the body is empty.

ghost use Rattle.std.specs.Prelude.{◌≡◌, [], ◌∷◌, Some, None, codes, option_map, true, false};
ghost use Rattle.clap.specs.declared.error.kind.ErrorKind.TheVariants.{DisplayVersion};
ghost use Rattle.xp_arguments.specs.Commands.{Ask, directory_of, file_of, kinds_of};
ghost use Rattle.xp_arguments.specs.declared.subcommand.CheckDepth.TheVariants as check_depths;
ghost use Rattle.xp_arguments.specs.declared.subcommand.CheckForm.TheVariants as check_forms;
ghost use Rattle.xp_arguments.specs.declared.subcommand.ConsoleRequest.TheVariants as requests;
ghost use Rattle.xp_arguments.specs.declared.subcommand.QuestionOrder.{QuestionOrder};
ghost use Rattle.xp_arguments.specs.declared.replay_order.ReplayForm.TheVariants as replay_forms;
ghost use Rattle.xp_arguments.specs.declared.replay_order.NamedPath.{NamedPath};
ghost use Rattle.xp_arguments.specs.declared.replay_order.ReplayOrder.{ReplayOrder};
ghost use Rattle.xp_arguments.specs.declared.subcommand.CheckOrder.{CheckOrder};
ghost use Rattle.xp_arguments.specs.declared.serve_order.ServeOrder.{ServeOrder};
ghost use Rattle.xp_arguments.specs.declared.subcommand.Subcommand.TheVariants as subcommands;
ghost use Rattle.xp_arguments.specs.declared.serve_order.TraceOrder.{TraceOrder};
ghost use Rattle.xp_limits.specs.declared.threads.ServingThreads.TheVariants.{Chosen, Lines};

/// Each subcommand can be asked for, and so can the version.
pub fn errands_can_be_asked_for()
    ensures check { Ask (codes "xp" ∷ codes "check" ∷ codes "a" ∷ []) (subcommands.Check (record { form = check_forms.Counts; depth = check_depths.File; after = None })) (codes "a") }
    ensures replay { (order : ReplayOrder) → order.form ≡ replay_forms.Digits → order.tables.items ≡ [] → Ask (codes "xp" ∷ codes "replay" ∷ codes "a" ∷ []) (subcommands.Replay order) (codes "a") }
    ensures summary { Ask (codes "xp" ∷ codes "check" ∷ codes "a" ∷ codes "--words" ∷ []) (subcommands.Check (record { form = check_forms.Words; depth = check_depths.File; after = None })) (codes "a") }
    ensures serving { Ask (codes "xp" ∷ codes "check" ∷ codes "a" ∷ codes "--serve" ∷ []) (subcommands.Check (record { form = check_forms.Counts; depth = check_depths.Serving; after = None })) (codes "a") }
    ensures ports { Ask (codes "xp" ∷ codes "check" ∷ codes "a" ∷ codes "--ports" ∷ []) (subcommands.Check (record { form = check_forms.Counts; depth = check_depths.Ports; after = None })) (codes "a") }
    ensures after { (order : CheckOrder) → order.form ≡ check_forms.Counts → order.depth ≡ check_depths.File → option_map (λ name. name.now) order.after ≡ Some (codes "b") → Ask (codes "xp" ∷ codes "check" ∷ codes "a" ∷ codes "--after" ∷ codes "b" ∷ []) (subcommands.Check order) (codes "a") }
    ensures words { (order : ReplayOrder) → order.form ≡ replay_forms.Words → order.tables.items ≡ [] → Ask (codes "xp" ∷ codes "replay" ∷ codes "a" ∷ codes "--words" ∷ []) (subcommands.Replay order) (codes "a") }
    ensures ladder { (order : ReplayOrder) → order.form ≡ replay_forms.Ladder → order.tables.items ≡ [] → Ask (codes "xp" ∷ codes "replay" ∷ codes "a" ∷ codes "--ladder" ∷ []) (subcommands.Replay order) (codes "a") }
    ensures tables { (order : ReplayOrder) (day night : NamedPath) → order.form ≡ replay_forms.Digits → order.tables.items ≡ day ∷ night ∷ [] → day.name.now ≡ codes "d" → day.path.now ≡ codes "b" → night.name.now ≡ codes "n" → night.path.now ≡ codes "c=d" → Ask (codes "xp" ∷ codes "replay" ∷ codes "a" ∷ codes "--tables" ∷ codes "d=b" ∷ codes "--tables=n=c=d" ∷ []) (subcommands.Replay order) (codes "a") }
    ensures explain { (question : QuestionOrder) → question.caller.now ≡ codes "b" → question.dialled.now ≡ codes "1" → option_map (λ text. text.now) question.facilities ≡ Some (codes "0101") → question.user ≡ None → question.up ≡ None → option_map (λ text. text.now) question.busy ≡ Some (codes "c") → question.status ≡ true → Ask (codes "xp" ∷ codes "explain" ∷ codes "a" ∷ codes "b" ∷ codes "1" ∷ codes "--facilities" ∷ codes "0101" ∷ codes "--busy" ∷ codes "c" ∷ codes "--status" ∷ []) (subcommands.Explain question) (codes "a") }
    ensures serve { Ask (codes "xp" ∷ codes "serve" ∷ codes "a" ∷ []) (subcommands.Serve (record { limits = record { records = 18446744073709551615; turns = 18446744073709551615; threads = Chosen }; details = None; live = None; no_live = false; exchange = None; trace = None; console = None; quiet = false; until_eof = false })) (codes "a") }
    ensures limits { Ask (codes "xp" ∷ codes "serve" ∷ codes "a" ∷ codes "--records" ∷ codes "12" ∷ codes "--turns" ∷ codes "3" ∷ codes "--threads" ∷ codes "lines" ∷ []) (subcommands.Serve (record { limits = record { records = 12; turns = 3; threads = Lines }; details = None; live = None; no_live = false; exchange = None; trace = None; console = None; quiet = false; until_eof = false })) (codes "a") }
    ensures details { (order : ServeOrder) → file_of order.details ≡ Some (codes "b") → directory_of order.details ≡ None → option_map (λ path. path.now) order.live ≡ Some (codes "c") → order.no_live ≡ false → option_map (λ name. name.now) order.exchange ≡ Some (codes "xp-1") → order.limits ≡ record { records = 18446744073709551615; turns = 18446744073709551615; threads = Chosen } → order.trace ≡ None → order.console ≡ None → order.quiet ≡ false → order.until_eof ≡ true → Ask (codes "xp" ∷ codes "serve" ∷ codes "a" ∷ codes "--cdr" ∷ codes "b" ∷ codes "--live" ∷ codes "c" ∷ codes "--name" ∷ codes "xp-1" ∷ codes "--until-eof" ∷ []) (subcommands.Serve order) (codes "a") }
    ensures directory { (order : ServeOrder) → file_of order.details ≡ None → directory_of order.details ≡ Some (codes "b") → option_map (λ path. path.now) order.live ≡ Some (codes "c") → order.no_live ≡ false → order.limits ≡ record { records = 18446744073709551615; turns = 18446744073709551615; threads = Chosen } → order.exchange ≡ None → order.trace ≡ None → order.console ≡ None → order.quiet ≡ false → order.until_eof ≡ false → Ask (codes "xp" ∷ codes "serve" ∷ codes "a" ∷ codes "--cdr-dir" ∷ codes "b" ∷ codes "--live" ∷ codes "c" ∷ []) (subcommands.Serve order) (codes "a") }
    ensures trace { (order : ServeOrder) → (trace : TraceOrder) → order.trace ≡ Some trace → trace.path.now ≡ codes "b" → option_map (λ names. names.now) trace.lines ≡ Some (codes "c") → order.limits ≡ record { records = 18446744073709551615; turns = 18446744073709551615; threads = Chosen } → order.details ≡ None → order.live ≡ None → order.no_live ≡ true → order.exchange ≡ None → order.console ≡ None → order.quiet ≡ false → order.until_eof ≡ false → Ask (codes "xp" ∷ codes "serve" ∷ codes "a" ∷ codes "--trace" ∷ codes "b" ∷ codes "--trace-lines" ∷ codes "c" ∷ codes "--no-live" ∷ []) (subcommands.Serve order) (codes "a") }
    ensures status { Ask (codes "xp" ∷ codes "status" ∷ codes "a" ∷ []) (subcommands.Ask requests.Status) (codes "a") }
    ensures stop { Ask (codes "xp" ∷ codes "stop" ∷ codes "a" ∷ []) (subcommands.Ask requests.Stop) (codes "a") }
    ensures reload { Ask (codes "xp" ∷ codes "reload" ∷ codes "a" ∷ []) (subcommands.Ask requests.Reload) (codes "a") }
    ensures version { kinds_of (codes "xp" ∷ codes "--version" ∷ []) ≡ DisplayVersion ∷ [] }
    ensures short_version { kinds_of (codes "xp" ∷ codes "-V" ∷ []) ≡ DisplayVersion ∷ [] }
{}
