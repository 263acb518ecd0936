// Sample files, built by the format's rules and not by the library's writer. Every size is 100, and record r is packet r at time 10 * r.
use cases::series::{Column, Series, put_series};
use octets::put_number;

// Writes a file into `out`, as far as there is room; its label is what stands there. Returns its length.
pub(crate) fn put_file(out: &mut [u8], label: u16, sent: u16, arrivals: u16) -> usize {
    let sizes = 4 + label as u32;
    let records = sizes + 2 * (sent as u32) + 2;
    let end = records as usize + 12 * (arrivals as usize);
    put_number(out, 0, 2, label as u64);
    put_number(out, sizes as usize - 2, 2, sent as u64);
    put_number(out, records as usize - 2, 2, arrivals as u64);
    let of_sizes = Column {
        at: sizes,
        width: 2,
        apart: 2,
    };
    let of_numbers = Column {
        at: records,
        width: 4,
        apart: 12,
    };
    let of_times = Column {
        at: records + 4,
        width: 8,
        apart: 12,
    };
    put_series(out, of_sizes, sent, Series { next: 100, step: 0 });
    put_series(out, of_numbers, arrivals, Series { next: 1, step: 1 });
    put_series(out, of_times, arrivals, Series { next: 10, step: 10 });
    end
}
