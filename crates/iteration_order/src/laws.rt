//! The laws of running order and of exchange, each the contract of a function that does nothing.
//! A loop ends and halts as the list of its turns, and for loops the exchange law means: the turns may run
//! in any other order in which each two turns that change places are the same in both orders. The loop
//! `for i = 0 to 3 { a[i] := a[i] + 1; }` has the turns 0, 1 and 2. Run backward, as 2, 1, 0, all three
//! pairs change places, and each two turns write different cells, so both orders end in the same stores.
//! With the body `a[i + 1] := a[i];` turn 1 reads what turn 0 writes, and the law says nothing.
//! The statements are in `specs/RunningOrder.antt`, `specs/Loops.antt` and `specs/Exchange.antt`.

ghost use Rattle.iteration_order.specs.Exchange.{Exchange, BlocksExchange};
ghost use Rattle.iteration_order.specs.Loops.{LoopIsItsTurns, NestIsItsTurns};
ghost use Rattle.iteration_order.specs.RunningOrder.{TuplesAreTheTurns, TuplesAscend};

/// A list of items that name blocks may be put in another order where the blocks of any two items whose
/// order is reversed end and halt alike in both orders.
pub fn exchange<T>()
    ensures { Exchange T }
{}

/// Two lists of blocks, one a permutation of the other, in which any two blocks of reversed order end
/// and halt alike in both orders, end and halt alike.
pub fn blocks_exchange()
    ensures { BlocksExchange }
{}

/// The tuples in running order are those within the bounds, and no others.
pub fn tuples_are_the_turns()
    ensures { TuplesAreTheTurns }
{}

/// The tuples in running order ascend in lexicographic order, so that none comes twice.
pub fn tuples_ascend()
    ensures { TuplesAscend }
{}

/// A loop runs as the list of its turns, each the body inside a `let` that sets the counter.
pub fn loop_is_its_turns()
    ensures { LoopIsItsTurns }
{}

/// A nest of loops, whose bounds are affine forms over the counters and over symbols that the body keeps,
/// runs as the list of its turns in running order.
pub fn nest_is_its_turns()
    ensures { NestIsItsTurns }
{}
