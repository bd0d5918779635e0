//! Laws of the words, over their definition alone.

ghost use Rattle.std.specs.Prelude.{◌≡◌, ◌⊎◌, ℕ, List, [], ◌∷◌, codes};
ghost use Rattle.qs_command.specs.declared.job.Command.TheVariants.{Run, Check, Graph, Phrase};
ghost use Rattle.qs_command.specs.declared.job.Job.{Job};
ghost use Rattle.qs_command.specs.Words.{AreRefused, IsJobOf};

/// Words give one job at most.
pub fn one_job()
    ensures { (words : List (List ℕ)) (j k : Job) → IsJobOf words j → IsJobOf words k → j ≡ k }
{}

/// Words give a job or are refused, and never both.
pub fn job_or_refused()
    ensures one { (words : List (List ℕ)) → ((job : Job) × IsJobOf words job) ⊎ AreRefused words }
    ensures not_both { (words : List (List ℕ)) (job : Job) → IsJobOf words job → AreRefused words → ⊥ }
{}

/// What is defined for some words that are written out.
pub fn words_written_out()
    ensures alone { IsJobOf (codes "run" ∷ [])
        (record { command = Run; limit = 10000; workers = 4; size = 8; readings = 10 }) }
    ensures limited { IsJobOf (codes "run" ∷ codes "--limit" ∷ codes "5" ∷ [])
        (record { command = Run; limit = 5; workers = 4; size = 8; readings = 10 }) }
    ensures in_front { IsJobOf (codes "--size=0" ∷ codes "--workers" ∷ codes "32" ∷ codes "run" ∷ [])
        (record { command = Run; limit = 10000; workers = 32; size = 0; readings = 10 }) }
    ensures least_workers { IsJobOf (codes "run" ∷ codes "--workers" ∷ codes "1" ∷ [])
        (record { command = Run; limit = 10000; workers = 1; size = 8; readings = 10 }) }
    ensures greatest_size { IsJobOf (codes "run" ∷ codes "--size" ∷ codes "13" ∷ [])
        (record { command = Run; limit = 10000; workers = 4; size = 13; readings = 10 }) }
    ensures minus_zero { IsJobOf (codes "run" ∷ codes "--size=-0" ∷ [])
        (record { command = Run; limit = 10000; workers = 4; size = 0; readings = 10 }) }
    ensures all_options { IsJobOf (codes "--size" ∷ codes "1" ∷ codes "run"
        ∷ codes "--workers=2" ∷ codes "--limit" ∷ codes "3" ∷ [])
        (record { command = Run; limit = 3; workers = 2; size = 1; readings = 10 }) }
    ensures check { IsJobOf (codes "check" ∷ [])
        (record { command = Check; limit = 10000; workers = 4; size = 8; readings = 10 }) }
    ensures graph { IsJobOf (codes "graph" ∷ codes "--limit" ∷ codes "3" ∷ [])
        (record { command = Graph; limit = 3; workers = 4; size = 8; readings = 10 }) }
    ensures phrase { IsJobOf (codes "phrase" ∷ codes "--readings" ∷ codes "1000" ∷ [])
        (record { command = Phrase; limit = 10000; workers = 4; size = 8; readings = 1000 }) }
    ensures no_words { AreRefused [] }
    ensures unknown { AreRefused (codes "walk" ∷ []) }
    ensures too_few { AreRefused (codes "run" ∷ codes "--limit" ∷ codes "0" ∷ []) }
    ensures too_many { AreRefused (codes "run" ∷ codes "--workers" ∷ codes "33" ∷ []) }
    ensures too_many_readings { AreRefused (codes "phrase" ∷ codes "--readings" ∷ codes "1001" ∷ []) }
    ensures repeated { AreRefused (codes "run" ∷ codes "--limit=5" ∷ codes "--limit=5" ∷ []) }
    ensures help { AreRefused (codes "run" ∷ codes "--help" ∷ []) }
{}
