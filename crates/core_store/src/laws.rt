//! Laws of what core functions do in a store: how an evaluation ends does not depend on steps that it does not need, and a store only
//! grows. No code but laws.

ghost use Rattle.core_store.specs.Scene.{Grew, CameBack};
ghost use Rattle.core_store.specs.Laws.{
  TurnsAreBodies,
  CallsAreBodies,
  EndsStayWithMoreSteps,
  NoMoreStepsAreLeft,
  EndsStayWithMoreReplies,
  NestingComesBack,
  StoresComeBack,
  IsReflexive,
  IsTransitive,
  StoreCallsGrow,
  FineStoresGrow,
  EmptyStoresAreFine,
  EmbeddersFunctionsAreFine,
};

/// A turn of a loop is its body, and then what its end says: the depth that the definition allows does not matter.
pub fn turns_are_bodies()
    ensures { TurnsAreBodies }
{}

/// A call is the body of its function, or the answer of the embedder.
pub fn calls_are_bodies()
    ensures { CallsAreBodies }
{}

/// An evaluation that has ended ends alike with more steps, and has as many more left; and never more is left than there was.
pub fn steps_are_counted()
    ensures further { EndsStayWithMoreSteps }
    ensures within { NoMoreStepsAreLeft }
{}

/// Replies that an evaluation does not ask for change nothing.
pub fn replies_are_asked_for()
    ensures { EndsStayWithMoreReplies }
{}

/// After an evaluation as many calls are in progress as before, where that holds of each question and its reply.
pub fn nesting_comes_back()
    ensures { NestingComesBack }
{}

/// A store only grows while core code is evaluated, where it only grows between each question and its reply.
pub fn stores_come_back()
    ensures { StoresComeBack }
{}

/// That a store only grew holds of a store and itself, and from one store by way of another to a third.
pub fn growth_adds_up()
    ensures grew_alone { IsReflexive Grew }
    ensures grew_on { IsTransitive Grew }
    ensures back_alone { IsReflexive CameBack }
    ensures back_on { IsTransitive CameBack }
{}

/// Each call of the store only lets it grow.
pub fn store_calls_grow()
    ensures { StoreCallsGrow }
{}

/// A store whose functions are fine stays so where each function that is added is fine.
pub fn fine_stores_grow()
    ensures { FineStoresGrow }
{}

/// A store without items is fine, and a fine store stays so with one more function of the embedder.
pub fn stores_begin_fine()
    ensures empty { EmptyStoresAreFine }
    ensures outside { EmbeddersFunctionsAreFine }
{}
