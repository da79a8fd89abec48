// Small data at which the facts of a run hold, and small data at which they do not.
ghost use Rattle.std.specs.Prelude.{◌≡◌, [], ◌∷◌, None, Some, false, true, codes};
ghost use Rattle.carp_engine.specs.Solutions.{IsSound};
ghost use Rattle.command_inputs.specs.Files.{GivenIn, HeldIn, HasLimit, RoseAtSome};
ghost use Rattle.command_inputs.specs.Reads.{IsOfBytes, IsOfCertificate, IsOfFile, IsOfInstance, IsOfNone, IsOfRound};
ghost use Rattle.command_inputs.specs.Inputs.{IsRefusalOf};
ghost use Rattle.command_line.specs.Commands.{Drill, instance_at, reads};
ghost use Rattle.command_line.specs.Laws.{HasBudget};
ghost use Rattle.carp_cli.specs.Outside.{AreKept, AreKeptInPart};
ghost use Rattle.carp_cli.specs.Answers.{IsDoneStatus, IsKnown, refusal_output};
ghost use Rattle.carp_cli.specs.Founded.{IsFounded, IsFoundedOf};
ghost use Rattle.command_outputs.specs.Solving.{IsEnding};
ghost use Rattle.command_outputs.specs.Outputs.{Output};
ghost use Rattle.carp_cli.specs.Refusals.{HasReport};
ghost use Rattle.carp_cli.specs.Runs.{IsHelped, Leaves};
ghost use Rattle.carp_cli.specs.Examples.{idle, stating, solving, checking, making, touring, editing, improving, outside};

use crate::Status;

fn facts_of_a_run_hold()
    ensures proven { IsEnding (stating 5 5) 64 0 Status.Proven }
    ensures gap { IsEnding (stating 5 4) 64 64 Status.Gap }
    ensures kept_none { AreKept [] (λ _. None) (λ _. None) }
    ensures rose { RoseAtSome (reads checking) (λ _. 0) (λ _. 1) }
    ensures limit { HasLimit 268435456 (reads checking) }
    ensures accepted { IsDoneStatus checking Status.Accepted }
    ensures improved { IsDoneStatus improving Status.Gap }
    ensures budget { HasBudget solving }
    ensures more_turns { HasBudget improving }
    ensures of_bytes { IsOfBytes (Status.NotJoined 1) }
    ensures helped { IsHelped (Some solving) Status.Gap }
    ensures helped_again { IsHelped (Some improving) Status.Gap }
    ensures report { HasReport Status.Gap }
{}

fn facts_of_a_run_fail()
    ensures cost { IsSound idle (stating 1 0) 0 → ⊥ }
    ensures bound { IsSound idle (stating 0 1) 0 → ⊥ }
    ensures proven { IsEnding (stating 5 4) 64 64 Status.Proven → ⊥ }
    ensures gap { IsEnding (stating 5 5) 64 64 Status.Gap → ⊥ }
    ensures too_early { IsEnding (stating 5 4) 64 63 Status.Gap → ⊥ }
    ensures kept_none { AreKept [] (λ _. None) (λ _. Some []) → ⊥ }
    ensures no_part { AreKeptInPart [] (λ _. None) (λ _. None) → ⊥ }
    ensures rose { RoseAtSome (reads checking) (λ _. 1) (λ _. 1) → ⊥ }
    ensures limit { HasLimit 268435456 (reads solving) → ⊥ }
    ensures accepted { IsDoneStatus checking Status.Proven → ⊥ }
    ensures improved { IsDoneStatus improving Status.Done → ⊥ }
    ensures budget { HasBudget (Drill 0 1) → ⊥ }
    ensures of_bytes { IsOfBytes Status.ReadFault → ⊥ }
    ensures helped { IsHelped (Some checking) Status.Accepted → ⊥ }
    ensures report { HasReport Status.BadUsage → ⊥ }
    ensures usage { Leaves true true (Some solving) (outside [] 0) (outside [] 0) Status.BadUsage → ⊥ }
    ensures write { Leaves true true (Some solving) (outside [] 0) (outside [] 0) Status.WriteFault → ⊥ }
    ensures memory { Leaves true true (Some solving) (outside [] 0) (outside (7 ∷ []) 0) Status.Memory → ⊥ }
{}

fn facts_of_answers_hold()
    ensures of_file { IsOfFile (Status.TooLong 1) }
    ensures of_round { IsOfRound (Status.NotJoined 1) }
    ensures unread { IsRefusalOf checking Status.ReadFault }
    ensures unread_again { IsRefusalOf improving Status.ReadFault }
    ensures apart { IsRefusalOf touring (Status.NotJoined 1) }
    ensures too_long { IsRefusalOf editing (Status.TooLong 1048576) }
    ensures held { HeldIn (λ _. Some []) (instance_at []) (λ bytes. bytes ≡ []) }
    ensures given { GivenIn 4 7 (instance_at []) (λ bytes. bytes ≡ codes "dat") }
    ensures told { IsKnown true (Some checking) }
    ensures reads_nothing { IsKnown false (Some making) }
    ensures founded { IsFounded checking 0 0 [] Status.ReadFault (refusal_output Status.ReadFault) }
    ensures usage { IsFoundedOf None 0 0 [] Status.BadUsage (refusal_output Status.BadUsage) }
{}

fn facts_of_answers_fail()
    ensures of_file { IsOfFile (Status.NotJoined 1) → ⊥ }
    ensures of_instance { IsOfInstance (Status.NotJoined 1) → ⊥ }
    ensures of_certificate { IsOfCertificate (Status.NotJoined 1) → ⊥ }
    ensures of_round { IsOfRound Status.ReadFault → ⊥ }
    ensures of_none { IsOfNone (Status.NotJoined 1) → ⊥ }
    ensures never_refused { IsRefusalOf making Status.ReadFault → ⊥ }
    ensures apart { IsRefusalOf checking (Status.NotJoined 1) → ⊥ }
    ensures not_improved { IsRefusalOf improving (Status.NotJoined 1) → ⊥ }
    ensures no_edit { IsRefusalOf editing (Status.NotJoined 1) → ⊥ }
    ensures held { HeldIn (λ _. None) (instance_at []) (λ bytes. bytes ≡ []) → ⊥ }
    ensures given { GivenIn 4 6 (instance_at []) (λ bytes. bytes ≡ codes "dat") → ⊥ }
    ensures none_given { GivenIn 4 7 (instance_at []) (λ bytes. ⊥) → ⊥ }
    ensures told { IsKnown false (Some checking) → ⊥ }
    ensures never_unread { (output : Output) → IsFounded making 0 0 [] Status.ReadFault output → ⊥ }
    ensures never_accepted { (output : Output) → IsFounded solving 0 0 [] Status.Accepted output → ⊥ }
    ensures usage { (output : Output) → IsFoundedOf None 0 0 [] Status.Done output → ⊥ }
{}
