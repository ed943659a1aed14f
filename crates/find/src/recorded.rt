// Reads the records of a replay stream and reports each search in it.
use search_report::report::{Data, table_line};
use std::io::Read;
use stream::lent::Lent;
use stream::records::Request;
use stream::walk::each_record;
use undivided_run::state::State;

// Returns the data of a search that a stream has set so far.
fn data_of(lent: &Lent) -> Data<'_> {
    Data {
        frame: lent.frame(),
        table: lent.table(),
    }
}

// Writes the name of a search in a stream: the number of its record, counted from 0.
fn record_name(rt: &impl Print, n: u64) {
    let _ = print!(rt; "record {n}: ");
}

// Does and reports what record number n asks for, and returns the state that it leaves. Records that ask for a slot read, a sweep or completing
// a candidate are no searches and are passed over.
fn report(rt: &impl Print, n: u64, request: Option<Request>, lent: &Lent) -> State {
    let state = lent.inputs.state;
    let data = data_of(lent);
    match request {
        Some(Request::Call(allowance)) => {
            record_name(rt, n);
            data.report_call(rt, state, allowance)
        }
        Some(Request::Run(_)) => {
            record_name(rt, n);
            data.report_search(rt, state)
        }
        Some(Request::Open) => {
            let table = data.table;
            table_line(rt, &table);
            state
        }
        _ => state,
    }
}

// Reads and reports a stream, record after record, and writes from which record on it can't be read, if there is one.
pub fn report_stream<R: Read>(rt: &impl Print, input: &mut R) {
    let reported = each_record(
        input,
        |n, record, lent| Ok(report(rt, n, record.request, lent)),
    );
    if let Err(broken) = reported {
        let _ = println!(rt; "{broken}");
    }
}
