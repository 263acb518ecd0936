// The public calls of the crates below, exported for C under names that begin with krakobran. include/krakobran.h declares them.
// Every export is total. It takes only pointers, 64-bit lengths and integers, since calling conventions differ in how they pass structs. It
// returns the refusal as a u64, 0 for none. A slice is a pointer and a length. The answer is written to the caller's array of u64, which C
// sees as a struct of named fields. An answer with several cases becomes the number of the case and the figures of all cases; figures
// that a case lacks are 0. If a call is refused, all figures are 0, and the caller's lists, buffers, receivers and meters stay unchanged.
#![tactic(auto)]

mod buffering_calls;
mod checker_calls;
mod disorder_calls;
mod figures;
mod follow_calls;
mod fragments_calls;
mod line_faults_calls;
mod meter_calls;
mod metrics_calls;
mod outcomes;
mod owamp_calls;
mod receiver_calls;
mod refusals_calls;
mod sample_calls;
mod shortlog_calls;
mod shortnumbers_calls;
mod summary_calls;
mod sweep_calls;
mod table_calls;
mod text_lines_calls;
mod textlog_calls;
mod worse_calls;
