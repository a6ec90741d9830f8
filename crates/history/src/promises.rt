// What is proved of the machine, each as the contract of a function that does nothing: so the check
// asks for its proof.
ghost use Rattle.history.specs.Arrangements.{SerializableExactlyWithoutCycle};
ghost use Rattle.history.specs.Machine.{State, Call};
ghost use Rattle.history.specs.Promises.{EveryRunSerializable};
ghost use Rattle.history.specs.Laws.{OneOutcome, RefusalsChangeNothing, ConflictsAbort, ExactTest, RetiresSmallest};
ghost use Rattle.history.specs.Cases.{WorkedExamples};

// Every run of every hub is serializable.
fn every_run_serializable()
    ensures { EveryRunSerializable }
{}

// In every state every call has one answer and one next state, up to the room of the store.
fn one_outcome()
    ensures { (s : State) (c : Call) → OneOutcome s c }
{}

// A refusal changes nothing, but that a step refused for conflict removes its job.
fn refusals_change_nothing()
    ensures others { RefusalsChangeNothing }
    ensures conflicts { ConflictsAbort }
{}

// A step is refused for conflict exactly when its edges would lead from its job back to it.
fn exact_test()
    ensures { ExactTest }
{}

// Retiring takes the smallest committed job that no edge leads into, again and again.
fn retires_smallest()
    ensures { RetiresSmallest }
{}

// The worked examples hold.
fn worked_examples()
    ensures { WorkedExamples }
{}

// Jobs are conflict equivalent to a serial schedule exactly when their conflict graph has no cycle.
fn serializable_exactly_without_cycle()
    ensures { SerializableExactlyWithoutCycle }
{}
