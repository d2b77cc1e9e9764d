// The check of DOC at its edge between the formats: all zeros, and so the check word 0000, is accepted where the check starts from 0
// and refused with 5 where it starts from ones; and with the word that `put_data` writes in format 3 it is the other way round.
use crate::entries_at_edges::told;

// What `accepted` says of DOC in a format.
fn doc(rt: &HostRuntime, name: &str, format: u8, line: &[u8]) {
    told(rt, name, sectors::check::accepted(format, line, 1));
}

pub fn all(rt: &HostRuntime) {
    let mut line = [0; 44356];
    doc(rt, "DOC of zeros in format 1", 1, &line);
    doc(rt, "DOC of zeros in format 2", 2, &line);
    doc(rt, "DOC of zeros in format 3", 3, &line);
    let zeros = [0; 2291];
    let name = "zeros put in format 3";
    let put = sector_writer::write::put_data(3, &mut line, 1, &zeros);
    told(rt, name, put);
    // the check word of DOC stands behind 2 bytes of the ID and 2,291 of the data
    let _ = text::row(
        rt,
        format_args!("{name}: check word {} {}", line[2293], line[2294]),
    );
    doc(rt, "with this word in format 1", 1, &line);
    doc(rt, "with this word in format 2", 2, &line);
    doc(rt, "with this word in format 3", 3, &line);
}
