//! Laws of the queue.
ghost use Rattle.al_deltas.specs.Laws.{BatchIsTables, CreatorsGoOn, NetIsCreators, NetIsRows, QueueIsCreators, QueueIsRows, RowsGoOn};

/// The rows after blocks are those below the queue, but where it has a change.
pub fn queue_is_rows()
    ensures { QueueIsRows }
{}

/// The queue from a round on, over the rows of that round, shows the same rows as before.
pub fn rows_go_on()
    ensures { RowsGoOn }
{}

/// The last changes of all keys lead to the rows after the blocks.
pub fn net_is_rows()
    ensures { NetIsRows }
{}

/// The last changes of all creators lead to the creators after the blocks.
pub fn net_is_creators()
    ensures { NetIsCreators }
{}

/// The creators after blocks are those below the queue, but where it has a change.
pub fn queue_is_creators()
    ensures { QueueIsCreators }
{}

/// The queue from a round on, over the creators of that round, shows the same creators as before.
pub fn creators_go_on()
    ensures { CreatorsGoOn }
{}

/// The commit of the batch of a queue leads to the tables after its blocks.
pub fn batch_is_tables()
    ensures { BatchIsTables }
{}
