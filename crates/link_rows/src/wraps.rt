//! What is seen of a small component that is wrapped, by examples that compute.

ghost use Rattle.link_rows.specs.WrapsRows.{
  AloneExamples,
  WrappedExamples,
  SilentExamples,
  ExportsExamples,
  PremisesHold,
};
ghost use Rattle.link_rows.specs.Outputs.{OutputExamples, StrategyExamples};

/// A component without imports is called, with its steps counted. It does nothing when it runs.
#[tactic(auto, using(crate::proofs::WrapsCompute::alone_examples))]
pub fn components_are_called()
    ensures { AloneExamples }
{}

/// In a component that hands its exports on it does the same in one step more. It does nothing when it runs.
#[tactic(auto, using(crate::proofs::WrapsCompute::wrapped_examples))]
pub fn wrapped_components_are_called()
    ensures { WrappedExamples }
{}

/// A component that exports nothing is made in one step more where it is wrapped, with empty sections and without. It does nothing
/// when it runs.
#[tactic(auto, using(crate::proofs::WrapsCompute::silent_examples))]
pub fn silent_components_are_wrapped()
    ensures { SilentExamples }
{}

/// What a component exports is of its type, item by item. It does nothing when it runs.
#[tactic(auto, using(crate::proofs::Exported::exports_examples))]
pub fn exports_are_of_their_types()
    ensures { ExportsExamples }
{}

/// The premises of the law of wrapped components can be met: these meet them. It does nothing when it runs.
#[tactic(auto, using(crate::proofs::Premises::premises_hold))]
pub fn wrapping_premises_are_met()
    ensures { PremisesHold }
{}

/// The output of a component does in one step more what the component does. It does nothing when it runs.
#[tactic(auto, using(crate::proofs::Outputs::output_examples))]
pub fn outputs_are_called()
    ensures { OutputExamples }
{}

/// A host that counts its calls is one by what it was asked. It does nothing when it runs.
#[tactic(auto, using(crate::proofs::Outputs::strategy_examples))]
pub fn hosts_are_asked()
    ensures { StrategyExamples }
{}
