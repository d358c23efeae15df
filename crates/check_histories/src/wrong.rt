//! Lists of events that no run brings, and the first such event of each, as contracts of functions that do nothing.
ghost use Rattle.check_histories.specs.Claims.{BreaksAt};
ghost use Rattle.check_histories.specs.Networks.{copy_network, two_network, two_at_limit, larger_network, tie_network, two_readers_network, ended_reader_network, clogged_network, zero_divisor_network, overflow_network, doubling_network, one_more_network, doubling_to_limit_network, resolved_network, resolved_to_limit_network, small_full_network, outside_network, cycle_below_limit};
ghost use Rattle.check_histories.specs.WrongLists.{puts_another_item, gets_out_of_turn, puts_for_a_fault, ends_too_early, ends_as_done, ends_as_overflow, ends_as_zero_divisor, waits_where_it_does_not_read, waits_where_it_does_not_write, ends_twice, waits_while_blocked, waits_for_an_unread_item, waits_with_room, waits_for_an_ended_reader, waits_for_a_left_sink, gets_the_newest, gets_once_more, takes_once_more, puts_into_a_full_channel, growth_left_out, grows_another_channel, grows_for_the_reader, grows_at_first, grows_twice, grows_without_a_cycle, grows_at_the_limit, grows_the_larger, grows_for_its_writer, grows_the_greater_number, puts_as_if_doubled, puts_past_the_limit, grows_past_the_limit, tells_too_small_a_capacity, tells_too_large_a_capacity, grows_while_one_is_ready, grows_before_the_close, grows_where_nobody_waits, grows_for_the_last_to_wait, growth_at_stop_left_out, passes_over_the_cycle, doubles_past_the_limit, puts_past_the_doubled, feeds_no_source, feeds_after_the_close, closes_no_source, closes_twice, takes_from_no_sink, takes_after_the_leave, leaves_no_sink, leaves_twice, nobody_puts, nobody_gets, nobody_ends, nobody_puts_nowhere};

/// A process says what its text says, ends as its text ends, and waits only if its text reads or writes.
pub fn processes_keep_to_their_texts()
    ensures puts_another_item { BreaksAt two_network puts_another_item 4 }
    ensures gets_out_of_turn { BreaksAt two_network gets_out_of_turn 1 }
    ensures puts_for_a_fault { BreaksAt zero_divisor_network puts_for_a_fault 2 }
    ensures ends_too_early { BreaksAt two_network ends_too_early 1 }
    ensures ends_as_done { BreaksAt zero_divisor_network ends_as_done 1 }
    ensures ends_as_overflow { BreaksAt zero_divisor_network ends_as_overflow 1 }
    ensures ends_as_zero_divisor { BreaksAt overflow_network ends_as_zero_divisor 1 }
    ensures does_not_read { BreaksAt two_network waits_where_it_does_not_read 0 }
    ensures does_not_write { BreaksAt two_network waits_where_it_does_not_write 5 }
{}

/// A process that has ended or is blocked does nothing.
pub fn the_ended_and_the_blocked_rest()
    ensures ends_twice { BreaksAt ended_reader_network ends_twice 2 }
    ensures waits_while_blocked { BreaksAt two_readers_network waits_while_blocked 1 }
{}

/// A process waits to read only if nothing is unread, and to write only on a full channel. A channel whose reader has
/// ended or left is not full.
pub fn waits_have_their_reason()
    ensures unread_item { BreaksAt copy_network waits_for_an_unread_item 1 }
    ensures room { BreaksAt two_network waits_with_room 0 }
    ensures ended_reader { BreaksAt ended_reader_network waits_for_an_ended_reader 2 }
    ensures left_sink { BreaksAt copy_network waits_for_a_left_sink 6 }
{}

/// Items are read in the order in which they were written, each once, and no more are unread than the capacity.
pub fn channels_are_queues()
    ensures gets_the_newest { BreaksAt copy_network gets_the_newest 2 }
    ensures gets_once_more { BreaksAt copy_network gets_once_more 3 }
    ensures takes_once_more { BreaksAt two_network takes_once_more 13 }
    ensures puts_into_a_full_channel { BreaksAt two_network puts_into_a_full_channel 1 }
{}

/// A growth comes at once if it is owed, and at no other time. It is the growth of the smallest full channel of the
/// cycle, by the process that closed it.
pub fn growths_are_owed()
    ensures left_out { BreaksAt two_network growth_left_out 3 }
    ensures another_channel { BreaksAt two_network grows_another_channel 3 }
    ensures for_the_reader { BreaksAt two_network grows_for_the_reader 3 }
    ensures at_first { BreaksAt two_network grows_at_first 0 }
    ensures twice { BreaksAt two_network grows_twice 4 }
    ensures without_a_cycle { BreaksAt clogged_network grows_without_a_cycle 4 }
    ensures at_the_limit { BreaksAt two_at_limit grows_at_the_limit 3 }
    ensures the_larger { BreaksAt larger_network grows_the_larger 5 }
    ensures for_its_writer { BreaksAt larger_network grows_for_its_writer 5 }
    ensures the_greater_number { BreaksAt tie_network grows_the_greater_number 4 }
{}

/// A growth makes a channel as large as the network says, never larger than the limit, and states that capacity.
pub fn growths_are_as_large_as_they_may_be()
    ensures by_one { BreaksAt one_more_network puts_as_if_doubled 7 }
    ensures past_the_limit { BreaksAt doubling_to_limit_network puts_past_the_limit 5 }
    ensures at_the_limit { BreaksAt doubling_to_limit_network grows_past_the_limit 6 }
    ensures tells_too_small { BreaksAt doubling_network tells_too_small_a_capacity 5 }
    ensures tells_too_large { BreaksAt one_more_network tells_too_large_a_capacity 5 }
{}

/// Under the policy `all` a growth comes at once if all stand still, and at no other time. It is the growth of the
/// smallest channel on which a process waits as full, for that process, unless a growth is owed for a cycle. It never
/// passes the limit.
pub fn growths_at_stops_are_owed()
    ensures while_one_is_ready { BreaksAt resolved_network grows_while_one_is_ready 3 }
    ensures before_the_close { BreaksAt outside_network grows_before_the_close 6 }
    ensures where_nobody_waits { BreaksAt small_full_network grows_where_nobody_waits 7 }
    ensures for_the_last_to_wait { BreaksAt resolved_network grows_for_the_last_to_wait 4 }
    ensures left_out { BreaksAt outside_network growth_at_stop_left_out 7 }
    ensures passes_over_the_cycle { BreaksAt cycle_below_limit passes_over_the_cycle 5 }
    ensures past_the_limit { BreaksAt resolved_to_limit_network doubles_past_the_limit 10 }
    ensures doubled { BreaksAt resolved_to_limit_network puts_past_the_doubled 9 }
{}

/// The outside feeds sources until it closes them, once, and takes from sinks until it leaves them, once.
pub fn the_outside_keeps_to_its_ends()
    ensures feeds_no_source { BreaksAt two_network feeds_no_source 0 }
    ensures feeds_after_the_close { BreaksAt copy_network feeds_after_the_close 1 }
    ensures closes_no_source { BreaksAt copy_network closes_no_source 0 }
    ensures closes_twice { BreaksAt copy_network closes_twice 1 }
    ensures takes_from_no_sink { BreaksAt two_network takes_from_no_sink 1 }
    ensures takes_after_the_leave { BreaksAt copy_network takes_after_the_leave 4 }
    ensures leaves_no_sink { BreaksAt copy_network leaves_no_sink 0 }
    ensures leaves_twice { BreaksAt copy_network leaves_twice 1 }
{}

/// The numbers of an event are numbers of the network.
pub fn numbers_are_of_the_network()
    ensures nobody_puts { BreaksAt ended_reader_network nobody_puts 0 }
    ensures nobody_gets { BreaksAt ended_reader_network nobody_gets 1 }
    ensures nobody_ends { BreaksAt ended_reader_network nobody_ends 0 }
    ensures nobody_puts_nowhere { BreaksAt ended_reader_network nobody_puts_nowhere 0 }
{}
