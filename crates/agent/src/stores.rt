// The tables and stores that the host lends for a call; they always go together. What only reads one gets it by a variable, as in
// `let held = &mut *stores.held;`: lent on at once as `&`, it would count as changed.
use sessions::objects::Object;
use sessions::stream_rows::StreamRow;
use sessions::table::SessionRow;

#[derive(Drop)]
pub(crate) struct Stores<'a> {
    pub sessions: &'a mut [SessionRow],
    pub streams: &'a mut [StreamRow],
    pub objects: &'a mut [Object],
    pub held: &'a mut [u8],
    pub parts: &'a mut [u8],
    pub lengths: &'a mut [u32],
    pub rebuilt: &'a mut [u8],
}
