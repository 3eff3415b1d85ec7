use eif_base::Name;

/// What a class has under a name. A constant is a routine.
#[derive(Clone, Copy)]
pub enum ParentState {
    DeferredFeature,
    AttributeFeature,
    RoutineFeature,
}

/// A name of the clause's class, and what the class has under it.
#[derive(Drop)]
pub struct ParentFeature {
    pub name: Name,
    pub state: ParentState,
}
