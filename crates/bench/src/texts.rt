// The texts of the answers by their names.

// A text of an answer. It is printed as it is, but for `N`, the next number, `E`, the next number or `none`, and `H`, the next as a byte.
#[derive(Clone, Copy)]
pub(crate) struct Text(pub(crate) &'static [u8]);

impl Text {
    pub(crate) const ACCEPTED: Text = Text(b"accepted");

    pub(crate) const REFUSED: Text = Text(b"refused N");

    pub(crate) const REFUSED_AT: Text = Text(b"refused N N");

    pub(crate) const MALFORMED: Text = Text(b"?");

    pub(crate) const SET: Text = Text(b"set");

    pub(crate) const LENT: Text = Text(b"lent N");

    pub(crate) const BUFFER: Text = Text(b"buffer N");

    pub(crate) const ROOM: Text = Text(b"room N");

    pub(crate) const FRESH: Text = Text(b"fresh");

    pub(crate) const WRITTEN: Text = Text(b"written");

    pub(crate) const VALUE: Text = Text(b"value N");

    pub(crate) const SELECTED: Text = Text(b"selected");

    pub(crate) const WAITING: Text = Text(b"waiting");

    pub(crate) const IDLE: Text = Text(b"idle");

    pub(crate) const SILENT: Text = Text(b"silent");

    pub(crate) const OPEN: Text = Text(b"open H");

    pub(crate) const MORE: Text = Text(b"more");

    pub(crate) const SUCCESS: Text = Text(b"success");

    pub(crate) const FAILURE: Text = Text(b"failure");

    pub(crate) const STATUS: Text = Text(b"status HH");

    pub(crate) const SENDING: Text = Text(b"sending");

    pub(crate) const NONE: Text = Text(b"none");

    pub(crate) const COMPLETED: Text = Text(b"completed");

    pub(crate) const FAILED: Text = Text(b"failed");

    pub(crate) const AHEAD: Text = Text(b"ahead N");

    pub(crate) const IGNORED: Text = Text(b"ignored");

    pub(crate) const STARTED: Text = Text(b"started");

    pub(crate) const DONE: Text = Text(b"done N");

    pub(crate) const BROKEN: Text = Text(b"broken");

    pub(crate) const PID: Text = Text(b"pid H");

    pub(crate) const CHECKSUM: Text = Text(b"checksum H");

    pub(crate) const ID: Text = Text(b"id N");

    pub(crate) const HOLDS: Text = Text(b"holds");

    pub(crate) const SHORT: Text = Text(b"short N");

    // Up to eight bytes, each number of them with a text of its own.
    pub(crate) const BYTES: [Text; 9] = [
        Text(b"bytes"),
        Text(b"bytes H"),
        Text(b"bytes H H"),
        Text(b"bytes H H H"),
        Text(b"bytes H H H H"),
        Text(b"bytes H H H H H"),
        Text(b"bytes H H H H H H"),
        Text(b"bytes H H H H H H H"),
        Text(b"bytes H H H H H H H H"),
    ];

    pub(crate) const RESPONSE: Text = Text(b"response H H H H H H H H");

    // What is shown.
    pub(crate) const PENDING: Text = Text(b"pending");

    pub(crate) const PENDING_FRAME: Text = Text(b" N");

    pub(crate) const FRAMES: Text = Text(b"frames");

    pub(crate) const OUT: Text = Text(b"out");

    pub(crate) const TAKEN: Text = Text(b"taken");

    pub(crate) const STATE: Text = Text(b"state wait N entry E request E open");

    pub(crate) const OPEN_NOTHING: Text = Text(b" nothing");

    pub(crate) const OPEN_FRAME: Text = Text(b" frame N");

    pub(crate) const OPEN_REQUEST: Text = Text(b" request");

    pub(crate) const OPEN_RESPONSE: Text = Text(b" response");

    pub(crate) const STATE_TRANSFER: Text = Text(
        b" count N bytes H H H H H H H H H written N message",
    );

    pub(crate) const MESSAGE_NONE: Text = Text(b" none");

    pub(crate) const MESSAGE_SENDING: Text = Text(b" sending N N N");

    pub(crate) const MESSAGE_COMPLETED: Text = Text(b" completed");

    pub(crate) const MESSAGE_FAILED: Text = Text(b" failed");

    pub(crate) const STATE_STATUS: Text = Text(b" status N N N H");

    pub(crate) const ASSEMBLY_NONE: Text = Text(b"assembly none");

    pub(crate) const ASSEMBLY: Text = Text(b"assembly N N N N");

    pub(crate) const RECEIVED: Text = Text(b"received");

    pub(crate) const RECEIVED_PLACEMENT: Text = Text(b" N N");

    pub(crate) const END: Text = Text(b"\n");
}
