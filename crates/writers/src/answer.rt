// What a deed is told, if it is not refused.
use rows::row::Row;

#[derive(Drop)]
pub enum Answer {
    Fine,
    // Somebody was in the way, or it took too long: begin anew.
    Again,
    // Somebody put an entry: look first.
    NotYet,
    // The entry was put; so many rows were touched.
    Counted(u64),
    // The rows of a version, file by file.
    Rows(Vec<Row>),
}
