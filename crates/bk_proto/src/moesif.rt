//! The microcode of MOESIF.

/// The text, behind a first line or nothing.
macro_rules! text {
    ($first:literal) => {
        concat!(
            $first,
            "; MOESIF: as MESI, and owners send blocks from cache to cache: Owned answers for a dirty
; shared block, Forward for a clean one. The numbers are the places of instructions.

; Idle. Nothing is held: wait for a request, or for the last answer to an earlier grant.
ready: know idle
  wfq req,resp           ; 0
  bk head Request take
; A response here can only be the CohAck of a finished request: it frees the way group.
  popq wp                ; 2
  bi ready
; A request is at the head. A way group with a request in progress takes no other one.
take: know idle head=Request gp=free|pending
  bk gp free go          ; 4
; The group is pending: leave the request in its channel until a response has come.
  defer                  ; 5
  wfq resp
  popq wp
  bi ready
; A write-back was asked for. CohAcks of other groups may come before its answer.
wbw: know held summ=sum wb=asked
  wfq resp               ; 9
  bk head CohAck wbc
  bk head Wb wbd
; NullWb: the copy was clean, so memory is up to date already.
  popq                   ; 12
  bi disp
; The CohAck of another group, while the write-back is awaited.
wbc: know held head=CohAck summ=sum wb=asked
  popq wp                ; 14
  bi wbw
; Wb: the copy was dirty, so its block goes to memory.
wbd: know held head=Wb summ=sum wb=asked
  popq                   ; 16
  pushq memwb
  bi disp
; Invalidations were sent: wait until each sharer has acknowledged.
ackw: know held summ=sum acks=some
  wfq resp               ; 19
  bk head CohAck akc
  popq
  bk acks some ackw
  bi disp
; The CohAck of another group, while acknowledgements are awaited.
akc: know held head=CohAck summ=sum acks=some
  popq wp                ; 24
  bi ackw
; Take the request up: mark its group as pending, read the directory's row and sum it up.
go: know idle head=Request
  popq wp                ; 26
  rdw
  gad
; Dispatch. Each repair below comes back here, with one thing less in the way.
; A victim in E, M or O is written back before anything else.
disp: know held summ=sum
  bk victim heavy fvic   ; 29
  bk kind Rd rd
  bk kind Wr wr
  bk kind UcRd ur
  bk kind Evict ev
; A write past the caches: no cache may keep a copy. Then memory's word is written.
  bk owner E,F,M,O foI   ; 34
  bk own S,E,F,M,O fwI
  bk others yes finv
  pushq memww
  pushq ucdone
  fin
  bi ready
; An eviction: the requester's own copy is given up, with a write-back where it is dirty.
ev: know held kind=Evict summ=sum victim=light
  bk own S,E,F,M,O fwI   ; 41
  pushq done
  fin
  bi ready
; A read past the caches. Memory must be up to date first: a copy that may be dirty is
; written back and kept in S. Then memory's block is read and its word sent.
ur: know held kind=UcRd summ=sum victim=light
  bk owner E,M,O foS     ; 45
  bk own E,M,O fwS
  pushq memrd
  wfq mem
  popq
  pushq ucblk
  fin
  bi ready
; A load miss. An owner sends the block itself, from cache to cache; memory is not asked.
rd: know held kind=Rd summ=sum own=I victim=light
  bk owner E,M,O ro      ; 53
  bk owner F rf
; No owner: memory's block.
  pushq memrd            ; 55
  wfq mem
  popq
  bk others yes rs
; No other copy: Exclusive.
  pushq blk E            ; 59
  wde E
  fin
  bi ready
; Other sharers, but none that answers: the requester becomes the Forwarder.
rs: know held kind=Rd summ=sum own=I owner=none others=yes victim=light mem=got
  pushq blk F            ; 63
  wde F
  fin
  bi ready
; The owner may be dirty: it stays as Owned, answers for the block, and sends a shared copy.
ro: know held kind=Rd summ=sum own=I owner=E|M|O victim=light
  pushq tr O S           ; 67
  wds owner O
  wde S
  fin
  bi ready
; The owner is a clean Forwarder: it stays so, and sends a shared copy.
rf: know held kind=Rd summ=sum own=I owner=F victim=light
  pushq tr F S           ; 72
  wds owner F
  wde S
  fin
  bi ready
; A store miss or an upgrade. All other sharers are invalidated first.
wr: know held kind=Wr summ=sum own=I|S|F|O victim=light
  bk others yes finv     ; 77
  bk owner E,F,M,O wt
  bk own I wm
; The requester has the only copy: it is granted M for that copy, without a transfer.
  pushq wake             ; 80
  wds own M
  fin
  bi ready
; An owner has the block: it hands the block over in M and gives up its copy.
wt: know held kind=Wr summ=sum own=I|S|F|O owner=E|F|M|O others=no victim=light
  pushq tr I M           ; 84
  wds owner I
  wde M
  fin
  bi ready
; No cache has a copy: memory's block is sent in M.
wm: know held kind=Wr summ=sum own=I owner=none others=no victim=light
  pushq memrd            ; 89
  wfq mem
  popq
  pushq blk M
  wde M
  fin
  bi ready
; Repairs: each asks for one write-back or sends invalidations, and then waits.
; The victim's block makes room.
fvic: know held summ=sum victim=heavy
  pushq stwb victim I    ; 96
  bi wbw
; The owner gives its copy up.
foI: know held summ=sum owner=E|F|M|O
  pushq stwb owner I     ; 98
  bi wbw
; The owner keeps a shared copy.
foS: know held summ=sum owner=E|F|M|O
  pushq stwb owner S     ; 100
  bi wbw
; The requester gives its own copy up.
fwI: know held summ=sum own=S|E|F|M|O
  pushq stwb own I       ; 102
  bi wbw
; The requester keeps a shared copy.
fwS: know held summ=sum own=E|M|O
  pushq stwb own S       ; 104
  bi wbw
; All sharers are invalidated.
finv: know held summ=sum others=yes
  inv                    ; 106
  bi ackw
"
        )
    };
}

/// MOESIF: as MESI, and Owned and Forward, whose holders send blocks from cache to cache.
pub const SOURCE: &str = text!("");

/// The same for up to sixteen caches.
pub const SOURCE_16: &str = text!("caches 16\n");
