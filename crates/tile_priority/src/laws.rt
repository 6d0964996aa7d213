//! Laws of the choice, as contracts of functions that do nothing.

ghost use Rattle.geom.specs.KeyOrder.{key_cmp};
ghost use Rattle.tile_priority.specs.Ranks.{rank_cmp};
ghost use Rattle.tile_priority.specs.Choice.{worst_cmp};
ghost use Rattle.tile_priority.specs.Laws.{IsOrder, OrdersFix, WorstFirstIsOne, FirstIsOne, EvictedAreOne, EvictedGiveWay, VisibleStart, OrderIsFree, LeastIsFirst, AlikeStay};

/// Keys, ranks and what may be evicted are each totally ordered, and only equal ones tie. So the least
/// of a list is one, and two lists in order with the same members are one list.
pub fn orders_are_total()
    ensures keys { IsOrder key_cmp }
    ensures ranks { IsOrder rank_cmp }
    ensures evictables { IsOrder worst_cmp }
    ensures one_key { OrdersFix key_cmp }
    ensures one_rank { OrdersFix rank_cmp }
    ensures one_evictable { OrdersFix worst_cmp }
{}

/// There is one worst-first list.
pub fn worst_first_is_one_list()
    ensures { WorstFirstIsOne }
{}

/// The rank that starts first is the least of those that may start, and there is one at most.
pub fn first_is_the_least()
    ensures { FirstIsOne }
{}

/// The evicted are the shortest prefix of the worst-first list that is enough, or the whole list if no
/// prefix is.
pub fn evicted_keys_are_a_front()
    ensures { EvictedAreOne }
{}

/// A pinned tile is never evicted.
pub fn pinned_tiles_stay()
    ensures { EvictedGiveWay }
{}

/// A visible tile may always start, over any budget.
pub fn visible_tiles_always_start()
    ensures { VisibleStart }
{}

/// The choice does not depend on the order of the lists that it is made from.
pub fn order_of_lists_is_free()
    ensures { OrderIsFree }
{}

/// A rank of a better bin has no fewer evictable tiles. So the rank that starts first is the least wanted one,
/// if that one may start; if it may not, none may.
pub fn the_least_wanted_is_first()
    ensures { LeastIsFirst }
{}

/// Choices that differ in the order of their lists alone are alike. They stay so when the same key starts
/// and when the same tile is made.
pub fn alike_choices_stay_alike()
    ensures { AlikeStay }
{}
