#![tactic(auto)]

// What the judge of schedules says of the master (document 02, Req 02): the frames that an entry can open are those that its slot opens in
// some state, and where the judge answers holds, whatever a tick opens fits the slot that it begins (proofs/InTime.antt). There is no code here.
