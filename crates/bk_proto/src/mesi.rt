//! The microcode of MESI.

/// The text, behind a first line or nothing.
macro_rules! text {
    ($first:literal) => {
        concat!(
            $first,
            "; MESI: as MSI, and a block without another copy is sent as Exclusive,
; so that its first store needs no message. The numbers are the places of instructions.

; Idle. Nothing is held: wait for a request, or for the last answer to an earlier grant.
ready: know idle
  wfq req,resp           ; 0
  bk head Request take
; A response here can only be the CohAck of a finished request: it frees the way group.
  popq wp                ; 2
  bi ready
; A request is at the head. A way group with a request in progress takes no other one.
take: know idle head=Request gp=free|pending
  bk gp free go          ; 4
; The group is pending: leave the request in its channel until a response has come.
  defer                  ; 5
  wfq resp
  popq wp
  bi ready
; A write-back was asked for. CohAcks of other groups may come before its answer.
wbw: know held summ=sum wb=asked
  wfq resp               ; 9
  bk head CohAck wbc
  bk head Wb wbd
; NullWb: the copy was clean, so memory is up to date already.
  popq                   ; 12
  bi disp
; The CohAck of another group, while the write-back is awaited.
wbc: know held head=CohAck summ=sum wb=asked
  popq wp                ; 14
  bi wbw
; Wb: the copy was dirty, so its block goes to memory.
wbd: know held head=Wb summ=sum wb=asked
  popq                   ; 16
  pushq memwb
  bi disp
; Invalidations were sent: wait until each sharer has acknowledged.
ackw: know held summ=sum acks=some
  wfq resp               ; 19
  bk head CohAck akc
  popq
  bk acks some ackw
  bi disp
; The CohAck of another group, while acknowledgements are awaited.
akc: know held head=CohAck summ=sum acks=some
  popq wp                ; 24
  bi ackw
; Take the request up: mark its group as pending, read the directory's row and sum it up.
go: know idle head=Request
  popq wp                ; 26
  rdw
  gad
; Dispatch. Each repair below comes back here, with one thing less in the way.
; A victim in E, M or O is written back before anything else.
disp: know held summ=sum
  bk victim heavy fvic   ; 29
  bk kind Rd rd
  bk kind Wr wr
  bk kind UcRd ur
  bk kind Evict ev
; A write past the caches: no cache may keep a copy. Then memory's word is written.
  bk owner E,F,M,O foI   ; 34
  bk own S,E,F,M,O fwI
  bk others yes finv
  pushq memww
  pushq ucdone
  fin
  bi ready
; An eviction: the requester's own copy is given up, with a write-back where it is dirty.
ev: know held kind=Evict summ=sum victim=light
  bk own S,E,F,M,O fwI   ; 41
  pushq done
  fin
  bi ready
; A read past the caches. Memory must be up to date first: a copy that may be dirty is
; written back and kept in S. Then memory's block is read and its word sent.
ur: know held kind=UcRd summ=sum victim=light
  bk owner E,M,O foS     ; 45
  bk own E,M,O fwS
  pushq memrd
  wfq mem
  popq
  pushq ucblk
  fin
  bi ready
; A load miss. An owner writes back and keeps a shared copy, then memory is read.
rd: know held kind=Rd summ=sum own=I victim=light
  bk owner E,F,M,O foS   ; 53
  pushq memrd
  wfq mem
  popq
  bk others yes rs
; No other copy: Exclusive, so that a later store needs no message.
  pushq blk E            ; 58
  wde E
  fin
  bi ready
; Other sharers: Shared.
rs: know held kind=Rd summ=sum own=I owner=none others=yes victim=light mem=got
  pushq blk S            ; 62
  wde S
  fin
  bi ready
; A store miss or an upgrade. All other sharers are invalidated first.
wr: know held kind=Wr summ=sum own=I|S|F|O victim=light
  bk others yes finv     ; 66
  bk owner E,F,M,O wt
  bk own I wm
; The requester has the only copy: it is granted M for that copy, without a transfer.
  pushq wake             ; 69
  wds own M
  fin
  bi ready
; An owner has the block: it hands the block over in M and gives up its copy.
wt: know held kind=Wr summ=sum own=I|S|F|O owner=E|F|M|O others=no victim=light
  pushq tr I M           ; 73
  wds owner I
  wde M
  fin
  bi ready
; No cache has a copy: memory's block is sent in M.
wm: know held kind=Wr summ=sum own=I owner=none others=no victim=light
  pushq memrd            ; 78
  wfq mem
  popq
  pushq blk M
  wde M
  fin
  bi ready
; Repairs: each asks for one write-back or sends invalidations, and then waits.
; The victim's block makes room.
fvic: know held summ=sum victim=heavy
  pushq stwb victim I    ; 85
  bi wbw
; The owner gives its copy up.
foI: know held summ=sum owner=E|F|M|O
  pushq stwb owner I     ; 87
  bi wbw
; The owner keeps a shared copy.
foS: know held summ=sum owner=E|F|M|O
  pushq stwb owner S     ; 89
  bi wbw
; The requester gives its own copy up.
fwI: know held summ=sum own=S|E|F|M|O
  pushq stwb own I       ; 91
  bi wbw
; The requester keeps a shared copy.
fwS: know held summ=sum own=E|M|O
  pushq stwb own S       ; 93
  bi wbw
; All sharers are invalidated.
finv: know held summ=sum others=yes
  inv                    ; 95
  bi ackw
"
        )
    };
}

/// MESI: as MSI, and Exclusive for a block without another copy.
pub const SOURCE: &str = text!("");

/// The same for up to sixteen caches.
pub const SOURCE_16: &str = text!("caches 16\n");
