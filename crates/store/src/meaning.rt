// What follows from the meaning of a store.
ghost use Rattle.notice.specs.declared.event.Notice.{Notice};
ghost use Rattle.store.specs.Laws.{StoreLaws};

// What put, drop and clear do to the lists, when a slot is full, and that the spare in use never
// comes to be over the spare.
pub fn meaning_stands()
    ensures { StoreLaws Notice }
{}
